#![tactic(auto)]
// A card's records: what setup gives each, what each holds, and which reads and writes it allows (01, The card).
mod finding;
mod judging;
mod setup;
pub mod sizes;
mod writing;

pub use finding::in_use;
pub use judging::answer_number;
use numbers::{Characters, Octets};
use sizes::{MOST_OCTETS, MOST_RECORDS};

// A label has a limit on its characters; a raw record has none.
// No option of a limit, which would name neither of 01's two kinds.
#[derive(Clone, Copy, Debug, PartialEq, Eq)]
pub enum Kind {
    Raw,
    Label(Characters),
}

// What setup gives a record besides its contents, and no call alters: TAB, kind, octet limit, and the marks
// readable, open to programming, open to transfer.
// The marks are three properties by themselves: none says whether another value is there.
#[derive(Clone, Copy)]
pub struct Attributes {
    pub tab: u8,
    pub kind: Kind,
    pub limit: Octets,
    pub readable: bool,
    pub programming: bool,
    pub transfer: bool,
}

// A record's contents are the first `length` octets of its storage. The octets after them are free.
// An array of one length: there is no heap, and the definitions keep the free octets.
#[derive(Clone, Copy)]
pub struct Record {
    pub attributes: Attributes,
    pub length: Octets,
    pub storage: [u8; MOST_OCTETS],
}

// The first `count` records are in use. The others are free.
// An array of one length: there is no heap, and the definitions keep the free records.
#[derive(Clone, Copy)]
pub struct Records {
    pub count: usize,
    pub each: [Record; MOST_RECORDS],
}

// Why data, a read or a write is refused: 7, 8, 9, 10 and 11 of 01's table.
#[derive(Clone, Copy, Debug, PartialEq, Eq)]
pub enum Refusal {
    TooLong,
    IllFormed,
    TooManyCharacters,
    NoRecord,
    NotOpen,
}

// What causes a write: the meter, or a frame from the primary with this ADP that programs, transfers or broadcasts.
#[derive(Clone, Copy, Debug, PartialEq, Eq)]
pub enum Cause {
    Meter,
    Programmed(u8),
    Transferred(u8),
    Broadcast(u8),
}

// The records after a write, and what became of it.
#[derive(Clone, Copy)]
pub struct Written {
    pub records: Records,
    pub answer: Result<(), Refusal>,
}
