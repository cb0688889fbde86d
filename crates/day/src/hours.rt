// What is done with the records: read, fitted and programmed, and laid side by side.
use crate::exchange::{Bus, exchange};
use crate::gather::Gathered;
use crate::primary::{Primary, Stage};
use crate::stations::{FLAT, FLAT_KEY, address, is_label, new_room};
use printing::{print_octets, print_record};
use std::io;
use swap::{Cursor, Entry, Kind, next_for, next_to_program};

// A key that the fitter types wrong.
const WRONG_KEY: [u8; 8] = [0x0E, 0x32, 0x92, 0x32, 0xEA, 0x6D, 0x0D, 0x73];

// The number NA1 of every programming request. It is fixed, so that every day prints the same; a real host lends a fresh one that nobody can guess.
const NA1: [u8; 8] = [0x01, 0x23, 0x45, 0x67, 0x89, 0xAB, 0xCD, 0xEF];

// The octet of a reply that is damaged.
const DAMAGED_AT: usize = 10;

// The bus after readings, and the records that were read.
#[derive(Clone, Copy)]
pub(crate) struct Readings {
    pub(crate) bus: Bus,
    pub(crate) gathered: Gathered,
}

// Reads records, each named by the last octet of its station's address and by its TAB. The reply to the reading with an index may be damaged on the wire.
pub(crate) fn read_all(
    rt: &impl Print,
    readings: Readings,
    polls: &[(u8, u8)],
    damaged: Option<usize>,
) -> io::Result<Readings> {
    let Readings {
        mut bus,
        mut gathered,
    } = readings;
    for (i, &(last, tab)) in polls.iter().enumerate() {
        let ads = address(last);
        let damage = damaged.filter(|&index| index == i).map(|_| DAMAGED_AT);
        let asked = bus.asking(rt, |tool, adp, frame| tool.read(&ads, adp, tab, frame))?;
        bus = exchange(rt, asked, damage)?;
        gathered = taken(rt, gathered, ads, tab, bus.primary)?;
    }
    Ok(Readings { bus, gathered })
}

// One record more, if it was read.
fn taken(
    rt: &impl Print,
    gathered: Gathered,
    ads: [u8; 6],
    tab: u8,
    primary: Primary,
) -> io::Result<Gathered> {
    let Stage::Done(contents) = primary.stage else {
        return Ok(gathered);
    };
    let kind = kind_of(tab);
    print_octets(rt, b"read  TAB ", &[tab])?;
    let data = octets::part(&contents.octets, 0, contents.length.0);
    print_record(rt, b" ", kind, data, b"\n")?;
    Ok(gathered.with_read(ads, tab, kind, contents))
}

fn kind_of(tab: u8) -> Kind {
    if is_label(tab) {
        Kind::Label
    } else {
        Kind::Raw
    }
}

// Programs the flat's new card from the file's records for it, one after the other; load curves are passed over. The holder's label is tried with a wrong key first.
pub(crate) fn program_all(rt: &impl Print, mut bus: Bus, file: &[u8]) -> io::Result<Bus> {
    let Ok(mut cursor) = swap::cursor::start(file) else {
        return Ok(bus);
    };
    while let Ok(Some((entry, after))) = next_to_program(cursor, file, FLAT) {
        bus = program_entry(rt, bus, entry.tab, fitted(rt, file, entry)?)?;
        cursor = after;
    }
    Ok(bus)
}

fn program_entry(rt: &impl Print, bus: Bus, tab: u8, data: &[u8]) -> io::Result<Bus> {
    let bus = if tab == 0x0A {
        program(rt, bus, tab, data, WRONG_KEY)?
    } else {
        bus
    };
    program(rt, bus, tab, data, FLAT_KEY)
}

fn program(rt: &impl Print, bus: Bus, tab: u8, data: &[u8], key: [u8; 8]) -> io::Result<Bus> {
    let asked = bus.asking(rt, |tool, adp, frame| {
        tool.program(&FLAT, adp, tab, data, &key, &NA1, frame)
    })?;
    let next = exchange(rt, asked, None)?;
    if let Stage::Done(_) = next.primary.stage {
        print_octets(rt, b"done  TAB ", &[tab])?;
        println!(rt; " programmed")?;
    }
    Ok(next)
}

// A record's data; a label is cut to the limits of its new record.
fn fitted<'a>(rt: &impl Print, file: &'a [u8], entry: Entry) -> io::Result<&'a [u8]> {
    let data = swap::cursor::content(file, entry);
    let Kind::Label = entry.kind else {
        return Ok(data);
    };
    let room = new_room(entry.tab);
    let kept = label::kept(data, room.octets, room.characters);
    print_octets(rt, b"fit   TAB ", &[entry.tab])?;
    print_record(rt, b" ", Kind::Label, data, b" within ")?;
    print!(rt; "{} and {}", room.octets.0, room.characters.0)?;
    print_record(rt, b": ", Kind::Label, kept, b"\n")?;
    Ok(kept)
}

// The flat's records of two files side by side.
pub(crate) fn compare_files(rt: &impl Print, old: &[u8], new: &[u8]) -> io::Result<()> {
    let Ok(mut old_cursor) = swap::cursor::start(old) else {
        return Ok(());
    };
    let Ok(mut new_cursor) = swap::cursor::start(new) else {
        return Ok(());
    };
    while let Ok(Some((entry, after))) = next_for(old_cursor, old, FLAT) {
        print_octets(rt, b"TAB ", &[entry.tab])?;
        let data = swap::cursor::content(old, entry);
        print_record(rt, b" old ", entry.kind, data, b"   | new ")?;
        new_cursor = print_beside(rt, entry.kind, new, new_cursor)?;
        old_cursor = after;
    }
    Ok(())
}

// The new card's next record beside an old one of a kind, with the cursor after it; a load curve has none, since it is on no card.
fn print_beside(rt: &impl Print, kind: Kind, file: &[u8], cursor: Cursor) -> io::Result<Cursor> {
    let next = match kind {
        Kind::Long => Ok(None),
        _ => next_to_program(cursor, file, FLAT),
    };
    let Ok(Some((entry, after))) = next else {
        println!(rt; "none")?;
        return Ok(cursor);
    };
    let data = swap::cursor::content(file, entry);
    print_record(rt, b"", entry.kind, data, b"\n")?;
    Ok(after)
}
