// The card that a memory holds.
ghost use Rattle.std.specs.Prelude.{◌≡◌, ◌≤◌};
ghost use Rattle.card_memory.specs.Layout.{records_at, record_places};
ghost use Rattle.card_memory.specs.Decoding.{kind_for, attributes_in, record_in, records_in, records_of, phase_in, exchange_in, identity_in, decoded};

use crate::layout::{
    ADDRESS_AT, CHARACTER_LIMIT_AT, COUNT_AT, KEY_AT, KIND_AT, LENGTH_AT, MARKS_AT, NA2_AT,
    OCTET_LIMIT_AT, RECEIVER_AT, RECORD_PLACES, RECORD_SIZE, RECORDS_AT, SIZE, STORAGE_AT, TAB_AT,
    WAIT_ADP_AT, WAIT_DATA_AT, WAIT_LENGTH_AT, WAIT_MARK_AT, WAIT_TAB_AT,
};
use card::{Card, Exchange, Identity, Phase};
use numbers::{Characters, Octets};
use records::{Attributes, Kind, Record, Records};

// The kind is an octet of card memory (the C interface).
// Apart from its callers, since their branch on the kind would be one on octets of a free record, which a C program need not have written.
#[inline(never)]
fn kind_for(kind: u8, limit: u8) -> Kind
    ensures { result ≡ kind_for kind limit }
{
    if kind == 1 {
        Kind::Label(Characters(usize::from(limit)))
    } else {
        Kind::Raw
    }
}

#[tactic(auto, unfolding(crate::specs::Decoding::attributes_in))]
fn attributes_in(part: &[u8]) -> Attributes
    ensures { result ≡ attributes_in part.now }
{
    let marks = octets::octet(part, MARKS_AT);
    Attributes {
        tab: octets::octet(part, TAB_AT),
        kind: kind_for(
            octets::octet(part, KIND_AT),
            octets::octet(part, CHARACTER_LIMIT_AT),
        ),
        limit: Octets(usize::from(octets::octet(part, OCTET_LIMIT_AT))),
        readable: marks % 2 == 1,
        programming: marks / 2 % 2 == 1,
        transfer: marks / 4 % 2 == 1,
    }
}

#[tactic(auto, unfolding(crate::specs::Decoding::record_in, receiver_memory::specs::Fields::field_at))]
fn record_in(part: &[u8]) -> Record
    ensures { result ≡ record_in part.now }
{
    Record {
        attributes: attributes_in(part),
        length: Octets(usize::from(octets::octet(part, LENGTH_AT))),
        storage: octets::padded(octets::part(part, STORAGE_AT, RECORD_SIZE)),
    }
}

// The places of all records from an offset on.
fn places_in(memory: &[u8], start: usize) -> [Record; RECORD_PLACES]
    requires { start ≤ records_at }
    ensures { result ≡ records_in record_places start memory.now }
{
    let mut each = [record_in(&[]); RECORD_PLACES];
    for i in 0..RECORD_PLACES {
        let at = start + RECORD_SIZE * i;
        each[i] = record_in(octets::part(memory, at, at + RECORD_SIZE));
    }
    each
}

pub(crate) fn records_in(count: u8, memory: &[u8], start: usize) -> Records
    requires { start ≤ records_at }
    ensures { result ≡ records_of count start memory.now }
{
    Records {
        count: usize::from(count),
        each: places_in(memory, start),
    }
}

#[tactic(auto, unfolding(crate::specs::Decoding::phase_in))]
fn phase_in(memory: &[u8]) -> Phase
    ensures { result ≡ phase_in memory.now }
{
    if octets::octet(memory, WAIT_MARK_AT) != 1 {
        return Phase::Idle;
    }
    Phase::Waiting {
        adp: octets::octet(memory, WAIT_ADP_AT),
        tab: octets::octet(memory, WAIT_TAB_AT),
        length: Octets(usize::from(octets::octet(memory, WAIT_LENGTH_AT))),
    }
}

#[tactic(auto, unfolding(receiver_memory::specs::Fields::field_at))]
fn exchange_in(memory: &[u8]) -> Exchange
    ensures { result ≡ exchange_in memory.now }
{
    Exchange {
        phase: phase_in(memory),
        content: octets::padded(octets::part(memory, WAIT_DATA_AT, NA2_AT)),
        na2: octets::padded(octets::part(memory, NA2_AT, COUNT_AT)),
    }
}

#[tactic(auto, unfolding(receiver_memory::specs::Fields::field_at))]
fn identity_in(memory: &[u8]) -> Identity
    ensures { result ≡ identity_in memory.now }
{
    Identity {
        address: octets::padded(octets::part(memory, ADDRESS_AT, KEY_AT)),
        key: octets::padded(octets::part(memory, KEY_AT, WAIT_MARK_AT)),
    }
}

// Of a memory that is too short, a field that does not fit counts as zero.
#[tactic(auto, unfolding(crate::specs::Decoding::decoded))]
pub fn decode(memory: &[u8]) -> Card
    ensures { result ≡ decoded memory.now }
{
    Card {
        identity: identity_in(memory),
        records: records_in(octets::octet(memory, COUNT_AT), memory, RECORDS_AT),
        exchange: exchange_in(memory),
        receiver: receiver_memory::decode(octets::part(memory, RECEIVER_AT, SIZE)),
    }
}
