// A fresh tool, and the events: an octet, a gap and a session end.
ghost use Rattle.std.specs.Prelude.{◌≡◌};
ghost use Rattle.octets.specs.Splice.{spliced};
ghost use Rattle.octets.specs.Part.{part_of};
ghost use Rattle.tool.specs.Parts.{answer_of_answered, answer_of_heard};
ghost use Rattle.tool.specs.Events.{gap, session_end};
ghost use Rattle.tool_memory.specs.Decoding.{fresh_memory};
ghost use Rattle.tool_exports.specs.Outcomes.{octet_outcome, event_shown, event_outcome};
ghost use Rattle.tool_exports.specs.Settling.{SettledOctet};

use crate::settling::{done_mark, store};
use frame::sizes::MOST_TRANSFERRED;
use numbers::table::NONE;
use tool::{Answered, Contents, Heard, answer_number};
use tool_memory::layout::SIZE;

// A fresh tool: no request runs, the receiver is empty, and there was no request yet.
#[tactic(auto, unfolding(tool_memory::specs::Decoding::fresh_memory))]
#[unsafe(no_mangle)]
pub extern "C" fn propolisk_tool_new(memory: &mut [u8; SIZE])
    ensures { memory.new ≡ fresh_memory }
{
    *memory = [0u8; SIZE];
}

// A reading's DATA over the front of the octets lent for them.
fn show(contents: Contents, data: &mut [u8; MOST_TRANSFERRED])
    ensures { «data».new ≡ spliced «data».old 0 (part_of contents.octets 0 contents.length.0) }
{
    octets::put(
        data,
        0,
        octets::part(&contents.octets, 0, contents.length.0),
    );
}

// What an octet leaves besides the frame: the memory, and the cells and a reading's DATA where it has no number.
fn settle(
    memory: &mut [u8; SIZE],
    heard: Heard,
    length: &mut usize,
    ended: &mut u8,
    data: &mut [u8; MOST_TRANSFERRED],
    count: &mut usize,
) -> u8
    ensures { SettledOctet (answer_of_heard heard) result memory.old memory.new length.old length.new ended.old ended.new «data».old «data».new count.old count.new }
{
    let number = answer_number(heard.answer);
    store(memory, heard.tool, number);
    if number == NONE {
        show(heard.contents, data);
        *length = heard.frame.0;
        *ended = done_mark(heard.answer);
        *count = heard.contents.length.0;
    }
    number
}

// An octet from the bus: 17, 12, then 1, 2, 4 or 5 of a bad frame, or what a reply does to the request that runs.
#[unsafe(no_mangle)]
pub extern "C" fn propolisk_tool_octet(
    memory: &mut [u8; SIZE],
    octet: u8,
    frame: &mut [u8],
    length: &mut usize,
    ended: &mut u8,
    data: &mut [u8; MOST_TRANSFERRED],
    count: &mut usize,
) -> u8
    ensures { record { number = result; memory = memory.new; loan = record { frame = frame.new; length = length.new; ended = ended.new; content = «data».new; count = count.new } } ≡ octet_outcome octet memory.old (record { frame = frame.old; length = length.old; ended = ended.old; content = «data».old; count = count.old }) }
{
    let heard = tool_memory::decode(memory).octet(octet, frame);
    settle(memory, heard, length, ended, data, count)
}

// The number of an event without a buffer, and the memory that it leaves.
fn conclude(memory: &mut [u8; SIZE], answered: Answered) -> u8
    ensures { record { number = result; memory = memory.new } ≡ event_shown (answer_of_answered answered) memory.old }
{
    let number = answer_number(answered.answer);
    store(memory, answered.tool, number);
    number
}

// A gap: 12, or 3 inside a frame.
#[tactic(auto, unfolding(crate::specs::Outcomes::event_outcome, tool::specs::Events::after))]
#[unsafe(no_mangle)]
pub extern "C" fn propolisk_tool_gap(memory: &mut [u8; SIZE]) -> u8
    ensures { record { number = result; memory = memory.new } ≡ event_outcome gap memory.old }
{
    let answered = tool_memory::decode(memory).gap();
    conclude(memory, answered)
}

// A session end: 12, or 15 where a request runs.
#[tactic(auto, unfolding(crate::specs::Outcomes::event_outcome, tool::specs::Events::after))]
#[unsafe(no_mangle)]
pub extern "C" fn propolisk_tool_session_end(memory: &mut [u8; SIZE]) -> u8
    ensures { record { number = result; memory = memory.new } ≡ event_outcome session_end memory.old }
{
    let answered = tool_memory::decode(memory).session_end();
    conclude(memory, answered)
}
