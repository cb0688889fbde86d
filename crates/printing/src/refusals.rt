// The numbers of the table in words.
use crate::line::print_octets;
use std::io;

// The words of each number, from 0 on.
const REASONS: [&str; 22] = [
    "no number",
    "length N out of range",
    "CRC wrong",
    "gap inside a frame",
    "command not known",
    "length not of this command",
    "address of the wrong sort",
    "data too long",
    "ill-formed text",
    "too many characters",
    "no such record",
    "not open",
    "setup rule broken",
    "cipher wrong",
    "echo wrong",
    "session ended",
    "tool busy",
    "wrong length lent",
    "swap file faulty",
    "unexpected frame",
    "rejected",
    "weak key",
];

// The tool's host gets a number; nothing is printed where there is none.
pub fn print_tool(rt: &impl Print, number: u8) -> io::Result<()> {
    print_refused(rt, b"tool ", &[], number)
}

// The same for the host of the card with this address.
pub fn print_card(rt: &impl Print, ads: [u8; 6], number: u8) -> io::Result<()> {
    print_refused(rt, b"card  ", &ads, number)
}

fn print_refused(rt: &impl Print, station: &[u8], ads: &[u8], number: u8) -> io::Result<()> {
    if number != 0 {
        print_octets(rt, station, ads)?;
        print!(rt; " refused {number}")?;
        if let Some(reason) = REASONS.get(usize::from(number)) {
            println!(rt; " ({reason})")?;
        }
    }
    Ok(())
}
