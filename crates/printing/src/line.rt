// Words, numbers, octets and frames on standard output.
use numbers::Octets;
use std::io;

// The most characters of words and a number, and of words and octets, that are printed; of longer ones none is.
const NUMBER_SIZE: usize = 64;

const OCTETS_SIZE: usize = 512;

pub fn print(rt: &impl Print, words: &[u8]) -> io::Result<()> {
    rt.write_all(words)
}

// Words, and a number after them. Words are octets and need not be text, so no `Display` writes them; both are written at once.
pub fn print_number(rt: &impl Print, words: &[u8], n: usize) -> io::Result<()> {
    let mut line = [0u8; NUMBER_SIZE];
    let end = text::put_number(&mut line, Octets(0), words, n as u64);
    print(rt, octets::part(&line, 0, end.0))
}

// Words, and octets after them, likewise.
pub fn print_octets(rt: &impl Print, words: &[u8], octets: &[u8]) -> io::Result<()> {
    let mut line = [0u8; OCTETS_SIZE];
    let end = text::put_hex(&mut line, Octets(0), words, octets);
    print(rt, octets::part(&line, 0, end.0))
}

// Octets as on the wire, after a bar, to the end of the line.
pub(crate) fn print_wire_octets(rt: &impl Print, octets: &[u8]) -> io::Result<()> {
    print!(rt; "   |")?;
    for octet in octets {
        print_octets(rt, b" ", &[*octet])?;
    }
    println!(rt;)
}

// Who sends a frame, the frame in words, and its octets.
pub fn print_frame(rt: &impl Print, speaker: &[u8], frame: &[u8]) -> io::Result<()> {
    let mut words = [0u8; frame_text::MOST_WORDS];
    let end = frame_text::put_frame(&mut words, Octets(0), frame);
    print(rt, speaker)?;
    print(rt, octets::part(&words, 0, end.0))?;
    print_wire_octets(rt, frame)
}
