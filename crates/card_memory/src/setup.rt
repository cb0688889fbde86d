// Setup's entries, and the memory that setup leaves.
ghost use Rattle.std.specs.Prelude.{◌≡◌};
ghost use Rattle.card_memory.specs.Setup.{entry_records, entry_kinds_known, set_up};

use crate::layout::{
    ADDRESS_AT, COUNT_AT, KEY_AT, RECEIVER_AT, RECORD_SIZE, RECORDS_AT, RECORDS_SIZE, WAIT_MARK_AT,
};
use crate::legibility::used_kinds_known;
use crate::reading::records_in;
use records::Records;

// The records of all entries, of which the first are in use.
pub fn entries(count: u8, entries: &[u8; RECORDS_SIZE]) -> Records
    ensures { result ≡ entry_records count entries.now }
{
    records_in(count, entries, 0)
}

pub fn entry_kinds_known(count: u8, entries: &[u8; RECORDS_SIZE]) -> bool
    ensures { result ≡ entry_kinds_known count entries.now }
{
    used_kinds_known(entries, count, 0)
}

// The memory of a fresh card; more records than there are places for leave the records' part as it is.
#[tactic(auto, unfolding(crate::specs::Setup::set_up, receiver_memory::specs::Puts::put_all))]
pub fn set_up(
    memory: &mut [u8],
    address: &[u8],
    key: &[u8],
    count: u8,
    entries: &[u8; RECORDS_SIZE],
)
    ensures { memory.new ≡ set_up address.now key.now count entries.now memory.old }
{
    octets::put(memory, ADDRESS_AT, address);
    octets::put(memory, KEY_AT, key);
    octets::put(memory, WAIT_MARK_AT, &[0]);
    octets::put(memory, COUNT_AT, &[count]);
    let end = usize::from(count) * RECORD_SIZE;
    octets::put(memory, RECORDS_AT, octets::part(entries, 0, end));
    octets::put(memory, RECEIVER_AT, &[0, 0]);
}
