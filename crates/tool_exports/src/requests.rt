// The five requests. Each tests 17, 12, 16, 6, 7 in this order, programming 21 before 7; a refusal changes nothing.
ghost use Rattle.std.specs.Prelude.{◌≡◌};
ghost use Rattle.tool.specs.Parts.{answer_of_requested};
ghost use Rattle.tool.specs.Requests.{reading, transferring, programming, broadcasting, initialising};
ghost use Rattle.tool_exports.specs.Outcomes.{request_outcome};
ghost use Rattle.tool_exports.specs.Settling.{Settled};

use crate::settling::{done_mark, store, wake_mark};
use numbers::table::NONE;
use tool::{Requested, answer_number};
use tool_memory::layout::SIZE;

// What a request leaves besides its frame: the memory, and the cells where it is not refused.
fn settle(
    memory: &mut [u8; SIZE],
    requested: Requested,
    length: &mut usize,
    wake: &mut u8,
    ended: &mut u8,
) -> u8
    ensures { Settled (answer_of_requested requested) result memory.old memory.new length.old length.new wake.old wake.new ended.old ended.new }
{
    let number = answer_number(requested.answer);
    store(memory, requested.tool, number);
    if number == NONE {
        *length = requested.frame.0;
        *wake = wake_mark(requested.wake);
        *ended = done_mark(requested.answer);
    }
    number
}

// Asks a station for a record.
#[unsafe(no_mangle)]
pub extern "C" fn propolisk_tool_read(
    memory: &mut [u8; SIZE],
    ads: &[u8],
    adp: u8,
    tab: u8,
    frame: &mut [u8],
    length: &mut usize,
    wake: &mut u8,
    ended: &mut u8,
) -> u8
    ensures { record { number = result; memory = memory.new; loan = record { frame = frame.new; length = length.new; wake = wake.new; ended = ended.new } } ≡ request_outcome (reading ads.now adp tab) memory.old (record { frame = frame.old; length = length.old; wake = wake.old; ended = ended.old }) }
{
    let requested = tool_memory::decode(memory).read(ads, adp, tab, frame);
    settle(memory, requested, length, wake, ended)
}

// Writes a record without a key.
#[unsafe(no_mangle)]
pub extern "C" fn propolisk_tool_transfer(
    memory: &mut [u8; SIZE],
    ads: &[u8],
    adp: u8,
    tab: u8,
    data: &[u8],
    frame: &mut [u8],
    length: &mut usize,
    wake: &mut u8,
    ended: &mut u8,
) -> u8
    ensures { record { number = result; memory = memory.new; loan = record { frame = frame.new; length = length.new; wake = wake.new; ended = ended.new } } ≡ request_outcome (transferring ads.now adp tab «data».now) memory.old (record { frame = frame.old; length = length.old; wake = wake.old; ended = ended.old }) }
{
    let requested = tool_memory::decode(memory).transfer(ads, adp, tab, data, frame);
    settle(memory, requested, length, wake, ended)
}

// Writes a record with a key: REC now, and AUT after the right ECH.
#[unsafe(no_mangle)]
pub extern "C" fn propolisk_tool_program(
    memory: &mut [u8; SIZE],
    ads: &[u8],
    adp: u8,
    tab: u8,
    data: &[u8],
    key: &[u8],
    na1: &[u8],
    frame: &mut [u8],
    length: &mut usize,
    wake: &mut u8,
    ended: &mut u8,
) -> u8
    ensures { record { number = result; memory = memory.new; loan = record { frame = frame.new; length = length.new; wake = wake.new; ended = ended.new } } ≡ request_outcome (programming ads.now adp tab «data».now key.now na1.now) memory.old (record { frame = frame.old; length = length.old; wake = wake.old; ended = ended.old }) }
{
    let requested = tool_memory::decode(memory).program(ads, adp, tab, data, key, na1, frame);
    settle(memory, requested, length, wake, ended)
}

// Writes a record of every station; done once sent.
#[unsafe(no_mangle)]
pub extern "C" fn propolisk_tool_broadcast(
    memory: &mut [u8; SIZE],
    ads: &[u8],
    adp: u8,
    tab: u8,
    data: &[u8],
    frame: &mut [u8],
    length: &mut usize,
    wake: &mut u8,
    ended: &mut u8,
) -> u8
    ensures { record { number = result; memory = memory.new; loan = record { frame = frame.new; length = length.new; wake = wake.new; ended = ended.new } } ≡ request_outcome (broadcasting ads.now adp tab «data».now) memory.old (record { frame = frame.old; length = length.old; wake = wake.old; ended = ended.old }) }
{
    let requested = tool_memory::decode(memory).broadcast(ads, adp, tab, data, frame);
    settle(memory, requested, length, wake, ended)
}

// Initialises the bus; done once sent.
#[unsafe(no_mangle)]
pub extern "C" fn propolisk_tool_initialise(
    memory: &mut [u8; SIZE],
    ads: &[u8],
    adp: u8,
    frame: &mut [u8],
    length: &mut usize,
    wake: &mut u8,
    ended: &mut u8,
) -> u8
    ensures { record { number = result; memory = memory.new; loan = record { frame = frame.new; length = length.new; wake = wake.new; ended = ended.new } } ≡ request_outcome (initialising ads.now adp) memory.old (record { frame = frame.old; length = length.old; wake = wake.old; ended = ended.old }) }
{
    let requested = tool_memory::decode(memory).initialise(ads, adp, frame);
    settle(memory, requested, length, wake, ended)
}
