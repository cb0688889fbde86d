#![tactic(auto)]
// Histories of the exported calls: a list of calls in octets is run over the card memory that setup leaves (demand 3).
ghost use Rattle.std.specs.Prelude.{◌≡◌, drop};
ghost use Rattle.card.specs.Events.{octet_call};
ghost use Rattle.history.specs.Encoding.{call_meant};
ghost use Rattle.card_exports.specs.Outcome.{call_outcome};
ghost use Rattle.memory_history.specs.Claim.{lent_outcome, run, Replayed};
ghost use Rattle.memory_history.specs.Encoding.{memory_call_at, memory_size_at, memory_calls_of, entries_of};

use card_exports::{
    propolisk_card_meter_write, propolisk_card_setup, propolisk_card_step_gap,
    propolisk_card_step_octet, propolisk_card_step_session_end,
};
use history::calls::{Call, LONGEST_LENT, split_call};

// One octet, with NA2 and a buffer of this length lent. What is replied is dropped.
fn after_octet(memory: &mut [u8], octet: u8, na2: &[u8], reply: u8)
    ensures { memory.new ≡ (call_outcome memory.old (octet_call octet (record { na2 = na2.now; reply = reply }))).memory }
{
    let mut buffer = [0; LONGEST_LENT];
    let mut length = 0;
    let lent = &mut buffer[..usize::from(reply)];
    propolisk_card_step_octet(memory, octet, na2, lent, &mut length);
}

// A call. Its number is dropped.
fn after(memory: &mut [u8], call: Call)
    ensures { memory.new ≡ (call_outcome memory.old (call_meant call.entry)).memory }
{
    match call {
        Call::Octet { octet, na2, reply } => after_octet(memory, octet, na2, reply),
        Call::MeterWrite { tab, data } => {
            propolisk_card_meter_write(memory, tab, data);
        }
        Call::SessionEnd => {
            propolisk_card_step_session_end(memory);
        }
        Call::Gap => {
            propolisk_card_step_gap(memory);
        }
    }
}

// The same with so many octets of the memory lent, from its front on; all of them where there are fewer.
fn after_lent(memory: &mut [u8], room: usize, call: Call)
    ensures { memory.new ≡ (lent_outcome memory.old (record { room = room; call = call_meant call.entry })).memory }
{
    let lent = room.min(memory.len());
    after(&mut memory[..lent], call);
}

// How many octets of the memory are lent to the first call, the call, and the octets behind it.
fn split_memory_call(history: &[u8]) -> (usize, Call<'_>, &[u8])
    ensures call { record { room = result.0; call = call_meant result.1 } ≡ memory_call_at history.now }
    ensures rest { result.2.now ≡ drop (memory_size_at history.now) history.now }
{
    let [low, high, behind @ ..] = history else {
        return (usize::from(octets::octet(history, 0)), Call::Gap, &[]);
    };
    let (call, rest) = split_call(behind);
    (usize::from(u16::from_le_bytes([*low, *high])), call, rest)
}

// No iterator, as in `history`.
fn run(memory: &mut [u8], mut history: &[u8])
    ensures { memory.new ≡ run memory.old (memory_calls_of history.entry.now) }
{
    while !history.is_empty() {
        let (room, call, rest) = split_memory_call(history);
        after_lent(memory, room, call);
        history = rest;
    }
}

// Setup's number, and the history run over the memory that it leaves, also where it is refused. Of setup's entries a slice has the first octets,
// with zeros after them; zeros alone where it has too many.
pub fn replay(
    memory: &mut [u8],
    address: &[u8],
    key: &[u8],
    count: u8,
    first: &[u8],
    history: &[u8],
) -> u8
    ensures { Replayed memory.old address.now key.now count (entries_of first.now) (memory_calls_of history.now) result memory.new }
{
    let number = propolisk_card_setup(memory, address, key, count, &octets::padded(first));
    run(memory, history);
    number
}
