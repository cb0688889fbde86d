// What a memory can hold and a card by value cannot: state marks not in use, and kinds that are none. Both are refused with 12.
ghost use Rattle.std.specs.Prelude.{◌≡◌, ◌≤◌};
ghost use Rattle.card_memory.specs.Layout.{records_at, size};
ghost use Rattle.card_memory.specs.Legibility.{marks_in_use, kind_known, used_kinds_known, legible};

use crate::layout::{COUNT_AT, KIND_AT, RECEIVER_MARK_AT, RECORD_SIZE, RECORDS_AT, WAIT_MARK_AT};
use records::in_use;

// The kind of a record that starts at an offset.
fn kind_known(memory: &[u8], at: usize) -> bool
    requires { at ≤ size }
    ensures { result ≡ kind_known memory.now at }
{
    octets::octet(memory, at + KIND_AT) <= 1
}

// Those of the first records from an offset on, as many as are in use.
// The records start at two places, in memory and in the entries lent for setup.
pub(crate) fn used_kinds_known(memory: &[u8], count: u8, start: usize) -> bool
    requires { start ≤ records_at }
    ensures { result ≡ used_kinds_known count start memory.now }
{
    (0..in_use(usize::from(count))).all(|i| kind_known(memory, start + RECORD_SIZE * i))
}

// The state marks: the wait's and the receiver's.
#[tactic(auto, unfolding(crate::specs::Legibility::marks_in_use))]
fn marks_in_use(memory: &[u8]) -> bool
    ensures { result ≡ marks_in_use memory.now }
{
    octets::octet(memory, WAIT_MARK_AT) <= 1 && octets::octet(memory, RECEIVER_MARK_AT) <= 1
}

#[tactic(auto, unfolding(crate::specs::Legibility::legible))]
pub fn legible(memory: &[u8]) -> bool
    ensures { result ≡ legible memory.now }
{
    marks_in_use(memory) && used_kinds_known(memory, octets::octet(memory, COUNT_AT), RECORDS_AT)
}
