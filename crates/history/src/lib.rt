#![tactic(auto)]
// Histories of a card: a list of calls in octets is run over a card that setup gives (demand 3).
ghost use Rattle.std.specs.Prelude.{◌≡◌};
ghost use Rattle.card.specs.Events.{octet_call, after};
ghost use Rattle.history.specs.Claim.{run, Replayed};
ghost use Rattle.history.specs.Encoding.{call_meant, calls_of};

pub mod calls;

use crate::calls::{Call, LONGEST_LENT, split_call};
use card::{Answered, Card};
use records::Records;

// One octet, with NA2 and a buffer of this length lent. What is replied is dropped.
fn after_octet(card: Card, octet: u8, na2: &[u8], reply: u8) -> Card
    ensures { result ≡ (after card (octet_call octet (record { na2 = na2.now; reply = reply }))).card }
{
    let mut buffer = [0; LONGEST_LENT];
    card.octet(octet, na2, &mut buffer[..usize::from(reply)])
        .card
}

#[tactic(auto, unfolding(card::specs::Events::after))]
fn after(card: Card, call: Call) -> Card
    ensures { result ≡ (after card (call_meant call.entry)).card }
{
    match call {
        Call::Octet { octet, na2, reply } => after_octet(card, octet, na2, reply),
        Call::MeterWrite { tab, data } => card.meter_write(tab, data).card,
        Call::SessionEnd => card.session_end().card,
        Call::Gap => card.gap().card,
    }
}

// No iterator: the calls are taken off the front, and an own iterator would need its ghost members for this one loop.
fn run(mut card: Card, mut history: &[u8]) -> Card
    ensures { result ≡ run card (calls_of history.entry.now) }
{
    while !history.is_empty() {
        let (call, rest) = split_call(history);
        card = after(card, call);
        history = rest;
    }
    card
}

// Setup, then the history. A refused setup's answer stands beside the card that it hands back, after the same calls.
pub fn replay(address: &[u8], key: &[u8], records: Records, history: &[u8]) -> Answered
    ensures { Replayed address.now key.now records (calls_of history.now) result }
{
    let start = Card::setup(address, key, records);
    Answered {
        card: run(start.card, history),
        ..start
    }
}
