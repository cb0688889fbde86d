// The lines that are printed.
use history::calls::LONGEST_LENT;
use numbers::Octets;
use records::{Record, Records};
use std::io;
use text::{put_hex, put_number, put_words};

// Enough for every line: the longest, with the octets of a reply or a record, has under 600 octets.
const LINE_SIZE: usize = 640;

pub(crate) fn print_setup(rt: &impl Print, number: u8) -> io::Result<()> {
    println!(rt; "setup {number}")
}

// A call without a reply has a line where it gave a number.
pub(crate) fn print_call(rt: &impl Print, index: u64, number: u8) -> io::Result<()> {
    if number != 0 {
        println!(rt; "{index} {number}")?;
    }
    Ok(())
}

// An octet has a line where it gave a number or a reply, or where an octet past the reply is no longer A5.
pub(crate) fn print_octet(
    rt: &impl Print,
    index: u64,
    number: u8,
    buffer: &[u8; LONGEST_LENT],
    reply: usize,
) -> io::Result<()> {
    let is_kept = buffer.iter().skip(reply).all(|&octet| octet == 0xA5);
    if number == 0 && reply == 0 && is_kept {
        return Ok(());
    }
    let mut line = [0u8; LINE_SIZE];
    let number_at = put_number(&mut line, Octets(0), b"", index);
    let reply_at = put_number(&mut line, number_at, b" ", u64::from(number));
    let next = put_some(&mut line, reply_at, octets::part(buffer, 0, reply));
    let end = put_past(&mut line, next, is_kept);
    print_line(rt, &mut line, end)
}

fn put_past(line: &mut [u8], at: Octets, is_kept: bool) -> Octets {
    if is_kept {
        return at;
    }
    put_words(line, at, b" past")
}

// A line for each record in use.
pub(crate) fn print_records(rt: &impl Print, records: &Records) -> io::Result<()> {
    for record in records.each.iter().take(records.count) {
        print_record(rt, record)?;
    }
    Ok(())
}

fn print_record(rt: &impl Print, record: &Record) -> io::Result<()> {
    let length = record.length.0;
    let contents = octets::part(&record.storage, 0, length);
    let mut line = [0u8; LINE_SIZE];
    let length_at = put_hex(&mut line, Octets(0), b"record ", &[record.attributes.tab]);
    let octets_at = put_number(&mut line, length_at, b" ", length as u64);
    let next = put_some(&mut line, octets_at, contents);
    print_line(rt, &mut line, next)
}

// A space and the octets; nothing where there are none.
fn put_some(line: &mut [u8], at: Octets, octets: &[u8]) -> Octets {
    if octets.is_empty() {
        return at;
    }
    put_hex(line, at, b" ", octets)
}

// The line is written whole, since a write for each part would make the list slower.
fn print_line(rt: &impl Print, line: &mut [u8], at: Octets) -> io::Result<()> {
    let end = put_words(line, at, b"\n");
    rt.write_all(octets::part(line, 0, end.0))
}
