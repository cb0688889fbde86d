// The lines of the list.
use frame_text::MOST_WORDS;
use numbers::Octets;
use std::io;

pub(crate) fn list_refusal(rt: &impl Print, number: u8, offset: u64) -> io::Result<()> {
    println!(rt; "refused {number} at {offset}")
}

pub(crate) fn list_skipped(rt: &impl Print, octets: u64) -> io::Result<()> {
    println!(rt; "skipped {octets} octets")
}

// The line is written whole, since a write for each part would make the list slower.
pub(crate) fn list_frame(rt: &impl Print, frame: &[u8]) -> io::Result<()> {
    let mut line = [0u8; MOST_WORDS + 1];
    let words = frame_text::put_frame(&mut line, Octets(0), frame);
    let end = text::put_words(&mut line, words, b"\n");
    rt.write_all(octets::part(&line, 0, end.0))
}
