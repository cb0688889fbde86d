// The records of a file one by one.
ghost use Rattle.std.specs.Prelude.{◌≡◌};
ghost use Rattle.swap.specs.Cursor.{answer_of_started, start_of, answer_of_next, next_at, ads_of, content_of};

use crate::file::{Fault, RecordCount, judge};
use crate::item::{Entry, item_at};
use numbers::Octets;

// Where the next record stands, and how many are left from there on.
#[derive(Clone, Copy, Debug, PartialEq, Eq)]
pub struct Cursor {
    pub at: Octets,
    pub left: RecordCount,
}

// No record stands at a cursor: it is not one of this file.
#[derive(Clone, Copy, Debug, PartialEq, Eq)]
pub struct NoRecord;

// The cursor of the first record. Judges the whole file, so that no file is walked whose records would not all come out.
pub fn start(file: &[u8]) -> Result<Cursor, Fault>
    ensures { answer_of_started result ≡ start_of file.now }
{
    let left = judge(file)?;
    Ok(Cursor {
        at: number::width(left.0 as u32),
        left,
    })
}

impl Cursor {
    // The record at the cursor, with the cursor after it; none at the end. Its items are judged anew, but not its order, so that no cursor leads out of the file.
    pub fn next(self, file: &[u8]) -> Result<Option<(Entry, Cursor)>, NoRecord>
        ensures { answer_of_next result ≡ next_at file.now self }
    {
        if self.left.0 == 0 {
            return Ok(None);
        }
        if file.len() < self.at.0 {
            return Err(NoRecord);
        }
        let Ok(entry) = item_at(file, self.at.0, 0) else {
            return Err(NoRecord);
        };
        let after = Cursor {
            at: Octets(entry.from.0 + entry.length.0),
            left: RecordCount(self.left.0 - 1),
        };
        Ok(Some((entry, after)))
    }
}

// The ADS of a record; zeros where the file has none there.
pub fn ads(file: &[u8], entry: Entry) -> [u8; 6]
    ensures { result ≡ ads_of file.now entry }
{
    if file.len() < entry.at.0 {
        return [0; 6];
    }
    octets::padded(octets::part(&file[entry.at.0..], 0, 6))
}

// The data of a record, as a part of the file; none where the file has no such part.
pub fn content(file: &[u8], entry: Entry) -> &[u8]
    ensures { result.now ≡ content_of file.now entry }
{
    let from = entry.from.0;
    let count = entry.length.0;
    if file.len() < count || file.len() - count < from {
        return &file[..0];
    }
    &file[from..from + count]
}
