#![tactic(auto)]
// Reads a swap file from standard input and lists its records, or says at which offset it is refused (01, Swap file).
use numbers::Octets;
use std::io;
use swap::file::FILE_LIMIT;
use swap::{Cursor, Entry, Fault};
use swap_text::{LONGEST_LINE, put_count, put_record, put_refusal};

fn main(rt: HostRuntime) -> io::Result<()> {
    // One octet more than the longest file, so that a longer one is seen to be too long.
    let mut buffer = [0u8; FILE_LIMIT + 1];
    let length = printing::read_full(&rt, &mut buffer)?;
    list(&rt, &buffer[..length])
}

fn list(rt: &impl Print, file: &[u8]) -> io::Result<()> {
    let mut line = [0u8; LONGEST_LINE];
    match swap::cursor::start(file) {
        Err(Fault(offset)) => {
            let end = put_refusal(&mut line, Octets(0), offset);
            print(rt, &line, end)
        }
        Ok(cursor) => {
            let end = put_count(&mut line, Octets(0), cursor.left);
            print(rt, &line, end)?;
            list_records(rt, file, cursor)
        }
    }
}

// A line for each record from the cursor on.
fn list_records(rt: &impl Print, file: &[u8], mut cursor: Cursor) -> io::Result<()> {
    while let Ok(Some((entry, after))) = cursor.next(file) {
        list_record(rt, file, entry)?;
        cursor = after;
    }
    Ok(())
}

fn list_record(rt: &impl Print, file: &[u8], entry: Entry) -> io::Result<()> {
    let mut line = [0u8; LONGEST_LINE];
    let ads = swap::cursor::ads(file, entry);
    let content = swap::cursor::content(file, entry);
    let end = put_record(&mut line, Octets(0), ads, entry.tab, entry.kind, content);
    print(rt, &line, end)
}

// The octets of a line up to its end.
fn print(rt: &impl Print, line: &[u8], end: Octets) -> io::Result<()> {
    rt.write_all(octets::part(line, 0, end.0))
}
