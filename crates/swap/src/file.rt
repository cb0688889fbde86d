// The verdict on a whole file.
ghost use Rattle.std.specs.Prelude.{◌≡◌, ◌≤◌, length, drop};
ghost use Rattle.swap.specs.Reading.{answer_of_verdict, verdict_of, answer_of_listing, read_records};

use crate::item::{item_at, rank};
use number::Number;
use numbers::Octets;

// The most octets that a file has.
pub const FILE_LIMIT: usize = 65536;
// The most records that a file has.
pub const COUNT_LIMIT: usize = 4096;

// A count of records.
#[derive(Clone, Copy, Debug, PartialEq, Eq)]
pub struct RecordCount(pub usize);

// The start of the first bad item of a faulty file.
#[derive(Clone, Copy, Debug, PartialEq, Eq)]
pub struct Fault(pub Octets);

// How many records an accepted file has.
pub fn judge(file: &[u8]) -> Result<RecordCount, Fault>
    ensures { answer_of_verdict result ≡ verdict_of file.now }
{
    if FILE_LIMIT < file.len() {
        return Err(Fault(Octets(FILE_LIMIT)));
    }
    let Some(Number { value, next }) = number::read(file, Octets(0)) else {
        return Err(Fault(Octets(0)));
    };
    let count = value as usize;
    if COUNT_LIMIT < count {
        return Err(Fault(Octets(0)));
    }
    judge_records(file, next.0, count)
}

// So many records from an offset on, and nothing after them.
fn judge_records(file: &[u8], start: usize, count: usize) -> Result<RecordCount, Fault>
    requires { start ≤ length file.now }
    ensures { answer_of_verdict result ≡ answer_of_listing (read_records count 0 start (drop start file.now)) }
{
    let mut at = start;
    let mut least = 0;
    for _judged in 0..count {
        let entry = item_at(file, at, least)?;
        least = rank(&file[at..]) + 1;
        at = entry.from.0 + entry.length.0;
    }
    if at < file.len() {
        return Err(Fault(Octets(at)));
    }
    Ok(RecordCount(count))
}
