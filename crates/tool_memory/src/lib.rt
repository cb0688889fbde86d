#![tactic(auto)]
// A tool in lent memory, octet by octet: docs/TOOL_MEMORY.md has the layout. Lengths are narrowed to one octet here and nowhere else.
ghost use Rattle.std.specs.Prelude.{◌≡◌};
ghost use Rattle.receiver_memory.specs.Puts.{put_all};
ghost use Rattle.tool_memory.specs.Decoding.{marks_in_use, waking_in, decoded};
ghost use Rattle.tool_memory.specs.Encoding.{mark_puts, request_puts, programming_puts, waking_puts, encoded};

mod fields;
pub mod layout;
mod marks;

use fields::field_at;
use layout::{
    ADP_AT, ADS_AT, KEY_AT, LENGTH_AT, MARK_AT, NA1_AT, RECEIVER_AT, SENT_AT, SIZE, STATION_AT,
    SUCCESSES_AT, TAB_AT,
};
use marks::{LAST_MARK, UNUSED, mark_of, phase_of, sent_length_of, tab_of};
use tool::{Phase, Tool};
use wake::{Exchanges, WakeUps};

// Whether the state marks are in use.
#[tactic(auto, unfolding(crate::specs::Decoding::marks_in_use))]
fn marks_in_use(memory: &[u8]) -> bool
    ensures { result ≡ marks_in_use memory.now }
{
    octets::octet(memory, MARK_AT) <= LAST_MARK
        && octets::octet(memory, RECEIVER_AT + receiver_memory::MARK_AT) <= 1
}

// The request that runs; one that every call refuses with 12 where a mark is not in use.
#[tactic(auto, unfolding(crate::specs::Decoding::decoded))]
fn phase_in(memory: &[u8]) -> Phase
    ensures { result ≡ (decoded memory.now).phase }
{
    if !marks_in_use(memory) {
        return UNUSED;
    }
    let mark = octets::octet(memory, MARK_AT);
    let tab = octets::octet(memory, TAB_AT);
    let length = octets::octet(memory, LENGTH_AT);
    phase_of(mark, tab, length)
}

// The wake-up memory.
#[tactic(auto, unfolding(crate::specs::Decoding::waking_in))]
fn waking_in(memory: &[u8]) -> WakeUps
    ensures { result ≡ waking_in memory.now }
{
    WakeUps {
        station: field_at(memory, STATION_AT),
        successes: Exchanges(octets::octet(memory, SUCCESSES_AT)),
    }
}

// The tool that a memory holds.
#[tactic(auto, unfolding(crate::specs::Decoding::decoded))]
pub fn decode(memory: &[u8]) -> Tool
    ensures { result ≡ decoded memory.now }
{
    Tool {
        phase: phase_in(memory),
        ads: field_at(memory, ADS_AT),
        adp: octets::octet(memory, ADP_AT),
        key: field_at(memory, KEY_AT),
        na1: field_at(memory, NA1_AT),
        sent: field_at(memory, SENT_AT),
        waking: waking_in(memory),
        receiver: receiver_memory::decode(octets::part(memory, RECEIVER_AT, SIZE)),
    }
}

// The mark of the request with its TAB and its length.
#[tactic(auto, unfolding(receiver_memory::specs::Puts::put_all))]
fn put_mark(memory: &mut [u8], tool: Tool)
    ensures { memory.new ≡ put_all (mark_puts tool memory.old) memory.old }
{
    let tab = octets::octet(memory, TAB_AT);
    let length = octets::octet(memory, LENGTH_AT);
    octets::put(memory, MARK_AT, &[mark_of(tool.phase)]);
    octets::put(memory, TAB_AT, &[tab_of(tool.phase, tab)]);
    octets::put(memory, LENGTH_AT, &[sent_length_of(tool.phase, length)]);
}

// The station and the ADP of the request.
#[tactic(auto, unfolding(receiver_memory::specs::Puts::put_all))]
fn put_request(memory: &mut [u8], tool: Tool)
    ensures { memory.new ≡ put_all (request_puts tool) memory.old }
{
    octets::put(memory, ADS_AT, &tool.ads);
    octets::put(memory, ADP_AT, &[tool.adp]);
}

// What a programming request keeps for its replies.
#[tactic(auto, unfolding(receiver_memory::specs::Puts::put_all))]
fn put_programming(memory: &mut [u8], tool: Tool)
    ensures { memory.new ≡ put_all (programming_puts tool) memory.old }
{
    octets::put(memory, KEY_AT, &tool.key);
    octets::put(memory, NA1_AT, &tool.na1);
    octets::put(memory, SENT_AT, &tool.sent);
}

// The wake-up memory.
#[tactic(auto, unfolding(receiver_memory::specs::Puts::put_all))]
fn put_waking(memory: &mut [u8], tool: Tool)
    ensures { memory.new ≡ put_all (waking_puts tool) memory.old }
{
    octets::put(memory, STATION_AT, &tool.waking.station);
    octets::put(memory, SUCCESSES_AT, &[tool.waking.successes.0]);
}

// A tool over the memory that holds it from now on.
#[tactic(auto, unfolding(crate::specs::Encoding::encoded, receiver_memory::specs::Puts::put_all))]
pub fn encode(memory: &mut [u8], tool: Tool)
    ensures { memory.new ≡ encoded tool memory.old }
{
    put_mark(memory, tool);
    put_request(memory, tool);
    put_programming(memory, tool);
    put_waking(memory, tool);
    receiver_memory::encode(memory, RECEIVER_AT, tool.receiver);
}
