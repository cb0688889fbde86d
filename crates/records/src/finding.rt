// The record that a TAB names.
ghost use Rattle.std.specs.Prelude.{◌≡◌, min};
ghost use Rattle.records.specs.Sizes.{most_records};
ghost use Rattle.records.specs.Numbers.{answer_of_found};
ghost use Rattle.records.specs.Finding.{used, attributes_of, find, find_readable};

use crate::sizes::MOST_RECORDS;
use crate::{Record, Records, Refusal};

// How many records are in use: a count over the most breaks a setup rule, and there are no more to use.
pub fn in_use(count: usize) -> usize
    ensures { result ≡ min count most_records }
{
    count.min(MOST_RECORDS)
}

impl Records {
    // The records in use.
    pub fn used(&self) -> &[Record]
        ensures { result.now ≡ used self.now }
    {
        &self.each[..in_use(self.count)]
    }

    // The record with this TAB: the first where a broken setup rule lets two have it.
    pub fn find(self, tab: u8) -> Result<usize, Refusal>
        ensures { answer_of_found result ≡ find (attributes_of self) tab }
    {
        self.used()
            .iter()
            .position(|record| record.attributes.tab == tab)
            .ok_or(Refusal::NoRecord)
    }

    // The record with this TAB, if it may be read.
    pub fn find_readable(self, tab: u8) -> Result<usize, Refusal>
        ensures { answer_of_found result ≡ find_readable (attributes_of self) tab }
    {
        let i = self.find(tab)?;
        if self.each[i].attributes.readable {
            Ok(i)
        } else {
            Err(Refusal::NotOpen)
        }
    }
}
