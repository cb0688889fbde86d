// The setup at the front of the input: the address, the key and the records, each after an octet that says how many there are.
use card::{Answered, Card};
use numbers::{Characters, Octets};
use records::sizes::MOST_OCTETS;
use records::{Attributes, Kind, Record, Records, in_use};

// A record of the input: TAB, kind, two limits, marks and length, then its storage.
const STORAGE_AT: usize = 6;

const ENTRY_SIZE: usize = STORAGE_AT + MOST_OCTETS;

// The count of the records may be over what a card has; the entries are those of the first of them.
#[derive(Clone, Copy)]
pub(crate) struct Setup<'a> {
    address: &'a [u8],
    key: &'a [u8],
    count: usize,
    entries: &'a [u8],
}

// The setup, and the calls after it; none where the input ends inside the setup.
pub(crate) fn read_setup(input: &[u8]) -> Option<(Setup<'_>, &[u8])> {
    let (address, rest) = counted(input)?;
    let (key, rest) = counted(rest)?;
    let (count, rest) = rest.split_first()?;
    let count = usize::from(*count);
    let (entries, calls) = rest.split_at_checked(ENTRY_SIZE * in_use(count))?;
    let setup = Setup {
        address,
        key,
        count,
        entries,
    };
    Some((setup, calls))
}

// As many octets as the first one says, and those after them.
fn counted(s: &[u8]) -> Option<(&[u8], &[u8])> {
    let (count, rest) = s.split_first()?;
    rest.split_at_checked(usize::from(*count))
}

impl Setup<'_> {
    // What setup gives for the address, the key and the records of the input.
    pub(crate) fn played(self) -> Answered {
        Card::setup(self.address, self.key, self.records())
    }

    fn records(self) -> Records {
        let mut records = Records::empty();
        records.count = self.count;
        for (record, entry) in records
            .each
            .iter_mut()
            .zip(self.entries.chunks_exact(ENTRY_SIZE))
        {
            *record = read_record(entry);
        }
        records
    }
}

fn read_record(entry: &[u8]) -> Record {
    let mut storage = [0u8; MOST_OCTETS];
    octets::put(&mut storage, 0, octets::part(entry, STORAGE_AT, ENTRY_SIZE));
    Record {
        attributes: read_attributes(entry),
        length: Octets(usize::from(octets::octet(entry, 5))),
        storage,
    }
}

fn read_attributes(s: &[u8]) -> Attributes {
    let marks = octets::octet(s, 4);
    let kind = octets::octet(s, 1);
    Attributes {
        tab: octets::octet(s, 0),
        kind: read_kind(kind, octets::octet(s, 3)),
        limit: read_limit(kind, octets::octet(s, 2)),
        readable: marks & 1 != 0,
        programming: marks & 2 != 0,
        transfer: marks & 4 != 0,
    }
}

// The kind is an octet of the input, which stays as it is.
fn read_kind(kind: u8, characters: u8) -> Kind {
    if kind == 1 {
        Kind::Label(Characters(usize::from(characters)))
    } else {
        Kind::Raw
    }
}

// A kind that is not known breaks the same rule as a limit over the most, which stands for it.
fn read_limit(kind: u8, limit: u8) -> Octets {
    Octets(usize::from(if kind < 2 { limit } else { 255 }))
}
