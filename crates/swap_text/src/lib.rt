#![tactic(auto)]
// The lines in which a program lists a swap file (01, Swap file), written into a lent buffer from an offset on. Each call gives the offset after its line;
// where the line does not fit, it leaves the buffer and gives the offset as it was.
ghost use Rattle.std.specs.Prelude.{◌≡◌, ◌+◌, ◌≤◌, length, take};
ghost use Rattle.text.specs.Text.{Written};
ghost use Rattle.swap_text.specs.Lines.{line_of, count_line, refusal_line, name_text, kind_text, record_line};

use numbers::Octets;
use swap::{Kind, RecordCount};
use text::{put_hex, put_number, put_words};

// A buffer of so many octets holds every line.
pub const LONGEST_LINE: usize = 82;

// The count of a file's records.
pub fn put_count(buffer: &mut [u8], at: Octets, records: RecordCount) -> Octets
    ensures { Written buffer.old at.0 (count_line records.0) result.0 buffer.new }
{
    let mut line = [0u8; LONGEST_LINE];
    let end = put_number(&mut line, Octets(0), b"records ", records.0 as u64);
    put_line(buffer, at, &mut line, end)
}

// The start of the first bad item of a file that is refused.
pub fn put_refusal(buffer: &mut [u8], at: Octets, offset: Octets) -> Octets
    ensures { Written buffer.old at.0 (refusal_line offset.0) result.0 buffer.new }
{
    let mut line = [0u8; LONGEST_LINE];
    let end = put_number(&mut line, Octets(0), b"refused 18 at ", offset.0 as u64);
    put_line(buffer, at, &mut line, end)
}

// A record: its ADS and TAB, its kind, and the counts of its data.
pub fn put_record(
    buffer: &mut [u8],
    at: Octets,
    ads: [u8; 6],
    tab: u8,
    kind: Kind,
    content: &[u8],
) -> Octets
    ensures { Written buffer.old at.0 (record_line ads tab kind content.now) result.0 buffer.new }
{
    let mut line = [0u8; LONGEST_LINE];
    let kind_at = put_name(&mut line, ads, tab);
    let end = put_kind(&mut line, kind_at, kind, content);
    put_line(buffer, at, &mut line, end)
}

// What stands in a line up to an offset, with a line feed after it.
fn put_line(buffer: &mut [u8], at: Octets, line: &mut [u8], end: Octets) -> Octets
    requires { end.0 + 1 ≤ length line.old }
    ensures { Written buffer.old at.0 (line_of (take end.0 line.old)) result.0 buffer.new }
{
    let length = put_words(line, end, b"\n");
    put_words(buffer, at, octets::part(line, 0, length.0))
}

// ADS and TAB, at the front of a line.
fn put_name(line: &mut [u8], ads: [u8; 6], tab: u8) -> Octets
    requires { 15 ≤ length line.old }
    ensures { Written line.old 0 (name_text ads tab) result.0 line.new }
{
    let tab_at = put_hex(line, Octets(0), b"", &ads);
    put_hex(line, tab_at, b" ", &[tab])
}

// A record's kind and counts.
#[tactic(auto, unfolding(crate::specs::Lines::kind_text))]
fn put_kind(line: &mut [u8], at: Octets, kind: Kind, content: &[u8]) -> Octets
    requires { at.0 + 66 ≤ length line.old }
    ensures { Written line.old at.0 (kind_text kind content.now) result.0 line.new }
{
    match kind {
        Kind::Raw => put_number(line, at, b" raw octets ", content.len() as u64),
        Kind::Label => put_label(line, at, content),
        Kind::Long => put_number(line, at, b" long octets ", content.len() as u64),
    }
}

// A label's two counts.
fn put_label(line: &mut [u8], at: Octets, content: &[u8]) -> Octets
    requires { at.0 + 66 ≤ length line.old }
    ensures { Written line.old at.0 (kind_text Kind.Label content.now) result.0 line.new }
{
    let next = put_number(line, at, b" label octets ", content.len() as u64);
    let Ok(characters) = label::measure(content) else {
        return next;
    };
    put_number(line, next, b" characters ", characters.0 as u64)
}
