#![tactic(auto)]
// The secondary station by value: its identity, its records, its exchange, and its receiver (01, The card).
ghost use Rattle.std.specs.Prelude.{◌≡◌};
ghost use Rattle.card.specs.Numbers.{refusal_number, answer_number};

mod events;
mod frames;
mod parts;
mod replies;
mod setup;
mod sound;
mod taking;

use frame::Fault;
use frame::sizes::{ADDRESS_WIDTH, MOST_PROGRAMMED, NUMBER_WIDTH};
use numbers::{Octets, table};
use receiver::Receiver;
use records::Records;

// What setup gives a card besides its records; the key is as long as the numbers that it enciphers.
#[derive(Clone, Copy)]
pub struct Identity {
    pub address: [u8; ADDRESS_WIDTH],
    pub key: [u8; NUMBER_WIDTH],
}

// Whether an exchange waits: one does after a REC, with that frame's ADP and TAB and as many octets of DATA.
// An enum of its own: 01 asks for a phase enum with these two cases.
#[derive(Clone, Copy, Debug, PartialEq, Eq)]
pub enum Phase {
    Idle,
    Waiting { adp: u8, tab: u8, length: Octets },
}

// The DATA that waits are the first octets of content, and na2 is the number lent with the REC.
// The other octets of content, and all of both while no exchange waits, are free.
// Arrays of one length: there is no heap, and the definitions keep the free octets.
#[derive(Clone, Copy)]
pub struct Exchange {
    pub phase: Phase,
    pub content: [u8; MOST_PROGRAMMED],
    pub na2: [u8; NUMBER_WIDTH],
}

#[derive(Clone, Copy)]
pub struct Card {
    pub identity: Identity,
    pub records: Records,
    pub exchange: Exchange,
    pub receiver: Receiver,
}

// Why a frame, an address, data, a card, a cipher, a lent slice or a key is refused.
#[derive(Clone, Copy, Debug, PartialEq, Eq)]
pub enum Refusal {
    BadFrame(Fault),
    BroadcastAddress,
    Write(records::Refusal),
    BrokenRule,
    WrongCipher,
    WrongLength,
    WeakKey,
}

// The next card beside what the host is told.
#[derive(Clone, Copy)]
pub struct Answered {
    pub card: Card,
    pub answer: Result<(), Refusal>,
}

// The next card beside what the host is told, and how many octets of the lent buffer are the reply frame: none where there is no reply.
#[derive(Clone, Copy)]
pub struct Stepped {
    pub card: Card,
    pub answer: Result<(), Refusal>,
    pub reply: Octets,
}

impl Refusal {
    // No From: `number` says which octet of an answer it is.
    pub fn number(self) -> u8
        ensures { result ≡ refusal_number self }
    {
        match self {
            Refusal::BadFrame(fault) => fault.number(),
            Refusal::BroadcastAddress => table::WRONG_ADDRESS,
            Refusal::Write(refusal) => refusal.number(),
            Refusal::BrokenRule => table::BROKEN_RULE,
            Refusal::WrongCipher => table::WRONG_CIPHER,
            Refusal::WrongLength => table::WRONG_LENGTH,
            Refusal::WeakKey => table::WEAK_KEY,
        }
    }
}

impl From<Fault> for Refusal {
    ghost use Rattle.card.specs.declared.Refusal.TheVariants.{BadFrame};

    ghost from_gives = { λ fault refusal. refusal ≡ BadFrame fault };

    fn from(fault: Fault) -> Refusal {
        Refusal::BadFrame(fault)
    }
}

impl From<records::Refusal> for Refusal {
    ghost use Rattle.card.specs.declared.Refusal.TheVariants.{Write};

    ghost from_gives = { λ refused refusal. refusal ≡ Write refused };

    fn from(refused: records::Refusal) -> Refusal {
        Refusal::Write(refused)
    }
}

// 01's number of an answer: 0 where nothing is refused.
pub fn answer_number(answer: Result<(), Refusal>) -> u8
    ensures { result ≡ answer_number answer }
{
    match answer {
        Ok(()) => table::NONE,
        Err(refusal) => refusal.number(),
    }
}
