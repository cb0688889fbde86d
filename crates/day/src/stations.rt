// The three cards of the block, and the one that takes the place of the flat's.
use card::Card;
use numbers::{Characters, Octets};
use records::sizes::{MOST_OCTETS, MOST_RECORDS};
use records::{Attributes, Kind, Record, Records};

pub(crate) const FLAT: [u8; 6] = [0x11, 0x22, 0x33, 0x44, 0x55, 0x66];

const SECOND: [u8; 6] = [0x11, 0x22, 0x33, 0x44, 0x55, 0x77];

const THIRD: [u8; 6] = [0x11, 0x22, 0x33, 0x44, 0x55, 0x88];

pub(crate) const FLAT_KEY: [u8; 8] = [0x13, 0x34, 0x57, 0x79, 0x9B, 0xBC, 0xDF, 0xF1];

const NEIGHBOURS_KEY: [u8; 8] = [0x01, 0x23, 0x45, 0x67, 0x89, 0xAB, 0xCD, 0xEF];

// The address of the block's station with this last octet.
pub(crate) fn address(last: u8) -> [u8; 6] {
    [0x11, 0x22, 0x33, 0x44, 0x55, last]
}

// The limits of a record of the flat's new card; the character limit is of a label alone.
#[derive(Clone, Copy)]
pub(crate) struct Room {
    pub(crate) octets: Octets,
    pub(crate) characters: Characters,
}

// The tool knows the records of the new card by their TAB.
pub(crate) fn new_room(tab: u8) -> Room {
    let (octets, characters) = match tab {
        0x01 => (4, 0),
        0x02 => (8, 0),
        0x0A => (16, 3),
        _ => (17, 20),
    };
    Room {
        octets: Octets(octets),
        characters: Characters(characters),
    }
}

// The TABs 0A and 0B are labels, all others raw.
pub(crate) fn is_label(tab: u8) -> bool {
    matches!(tab, 0x0A | 0x0B)
}

// A record with its contents. All are readable and open to programming.
fn record(tab: u8, kind: Kind, limit: usize, contents: &[u8]) -> Record {
    let mut storage = [0u8; MOST_OCTETS];
    octets::put(&mut storage, 0, contents);
    Record {
        attributes: Attributes {
            tab,
            kind,
            limit: Octets(limit),
            readable: true,
            programming: true,
            transfer: false,
        },
        length: Octets(contents.len()),
        storage,
    }
}

fn raw(tab: u8, limit: usize, contents: &[u8]) -> Record {
    record(tab, Kind::Raw, limit, contents)
}

fn label(tab: u8, limit: usize, characters: usize, contents: &str) -> Record {
    let kind = Kind::Label(Characters(characters));
    record(tab, kind, limit, contents.as_bytes())
}

// A card with these records, as many as it has places for.
fn set_up(ads: [u8; 6], key: [u8; 8], all: &[Record]) -> Card {
    let mut records = Records::empty();
    for (place, record) in records.each.iter_mut().zip(all) {
        *place = *record;
    }
    records.count = all.len().min(MOST_RECORDS);
    Card::setup(&ads, &key, records).card
}

// Two raw records of 4 and 8 octets, and two labels, of 16 octets and characters and of 40: Zoé, with e and U+0301, and Résidence du Château.
fn old_card() -> Card {
    set_up(
        FLAT,
        FLAT_KEY,
        &[
            raw(0x01, 4, &[0x00, 0x01, 0x86, 0xA0]),
            raw(0x02, 8, &[0x06, 0x17, 0x21, 0x0A]),
            label(0x0A, 16, 16, "Zoe\u{301}"),
            label(0x0B, 40, 40, "Résidence du Château"),
        ],
    )
}

// The same records, all empty, but that the labels have room for 16 octets and 3 characters, and for 17 and 20.
pub(crate) fn new_card() -> Card {
    set_up(
        FLAT,
        FLAT_KEY,
        &[
            raw(0x01, 4, &[]),
            raw(0x02, 8, &[]),
            label(0x0A, 16, 3, ""),
            label(0x0B, 17, 20, ""),
        ],
    )
}

// An index and a label, Inès.
fn second_card() -> Card {
    set_up(
        SECOND,
        NEIGHBOURS_KEY,
        &[
            raw(0x01, 4, &[0x00, 0x00, 0x0B, 0xB8]),
            label(0x0A, 16, 16, "Inès"),
        ],
    )
}

// Six indexes, so that the van reads this station a sixth time.
fn third_card() -> Card {
    set_up(
        THIRD,
        NEIGHBOURS_KEY,
        &[
            raw(0x01, 4, &[0x00, 0x00, 0xC3, 0x50]),
            raw(0x02, 4, &[0x00, 0x00, 0xC3, 0x51]),
            raw(0x03, 4, &[0x00, 0x00, 0xC3, 0x52]),
            raw(0x04, 4, &[0x00, 0x00, 0xC3, 0x53]),
            raw(0x05, 4, &[0x00, 0x00, 0xC3, 0x54]),
            raw(0x06, 4, &[0x00, 0x00, 0xC3, 0x55]),
        ],
    )
}

// The block in the morning.
pub(crate) fn block() -> [Card; 3] {
    [old_card(), second_card(), third_card()]
}
