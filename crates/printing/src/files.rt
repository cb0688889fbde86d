// Records and swap files as they are printed.
use crate::line::{print, print_number, print_octets, print_wire_octets};
use std::io;
use swap::{Entry, Kind};

// A swap file's octets, and a line for each of its records.
pub fn print_file(rt: &impl Print, file: &[u8]) -> io::Result<()> {
    print_number(rt, b"file  octets ", file.len())?;
    print_wire_octets(rt, file)?;
    print_entries(rt, file)
}

fn print_entries(rt: &impl Print, file: &[u8]) -> io::Result<()> {
    let Ok(mut cursor) = swap::cursor::start(file) else {
        return Ok(());
    };
    while let Ok(Some((entry, after))) = cursor.next(file) {
        print_entry(rt, file, entry)?;
        cursor = after;
    }
    Ok(())
}

fn print_entry(rt: &impl Print, file: &[u8], entry: Entry) -> io::Result<()> {
    print_octets(rt, b"file  ", &swap::cursor::ads(file, entry))?;
    print_octets(rt, b" TAB ", &[entry.tab])?;
    let content = swap::cursor::content(file, entry);
    print_record(rt, b" ", entry.kind, content, b"\n")
}

// A record's kind, its counts, and what it holds, between two texts; what a long one holds would fill a page.
pub fn print_record(
    rt: &impl Print,
    before: &[u8],
    kind: Kind,
    data: &[u8],
    after: &[u8],
) -> io::Result<()> {
    print(rt, before)?;
    match kind {
        Kind::Raw => print_raw(rt, data)?,
        Kind::Label => print_label(rt, data)?,
        Kind::Long => print!(rt; "long octets {}", data.len())?,
    }
    print(rt, after)
}

fn print_raw(rt: &impl Print, data: &[u8]) -> io::Result<()> {
    print_number(rt, b"raw octets ", data.len())?;
    print_octets(rt, b" ", data)
}

// A label's two counts and its text.
fn print_label(rt: &impl Print, data: &[u8]) -> io::Result<()> {
    let Ok(characters) = label::measure(data) else {
        return Ok(());
    };
    print!(rt;
        "label octets {} characters {} \"",
        data.len(),
        characters.0
    )?;
    print(rt, data)?;
    print!(rt; "\"")
}
