// The library's S-boxes, for whoever compares them with FIPS 46-3.
use numbers::Octets;
use std::io;
use text::{put_hex, put_number, put_words};

// Enough for the name of a box and the digits of sixteen entries.
const ROW_SIZE: usize = 64;

// Writes the eight boxes: a line for each of their four rows, with its sixteen entries after the name of the box.
pub(crate) fn print(rt: &impl Print) -> io::Result<()> {
    for (row, entries) in des::boxes::boxes().chunks_exact(16).enumerate() {
        print_row(rt, row / 4 + 1, entries)?;
    }
    Ok(())
}

// The line is written whole, since a write for each part would make the list slower.
fn print_row(rt: &impl Print, name: usize, entries: &[u8]) -> io::Result<()> {
    let mut line = [0u8; ROW_SIZE];
    let entries_at = put_number(&mut line, Octets(0), b"S", name as u64);
    let next = put_hex(&mut line, entries_at, b" ", entries);
    let end = put_words(&mut line, next, b"\n");
    rt.write_all(octets::part(&line, 0, end.0))
}
