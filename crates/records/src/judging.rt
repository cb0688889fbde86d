// Whether data is acceptable to a record.
ghost use Rattle.std.specs.Prelude.{◌≡◌};
ghost use Rattle.records.specs.Judging.{over_long, acceptable, contents, contents_answer};
ghost use Rattle.records.specs.Numbers.{refusal_number, answer_number, answer_of_judged};

use crate::sizes::MOST_OCTETS;
use crate::{Attributes, Kind, Record, Refusal};
use numbers::{Characters, Octets, table};

impl Refusal {
    // No From: `number` says which octet of an answer it is.
    pub fn number(self) -> u8
        ensures { result ≡ refusal_number self }
    {
        match self {
            Refusal::TooLong => table::TOO_LONG,
            Refusal::IllFormed => table::ILL_FORMED,
            Refusal::TooManyCharacters => table::TOO_MANY_CHARACTERS,
            Refusal::NoRecord => table::NO_RECORD,
            Refusal::NotOpen => table::NOT_OPEN,
        }
    }
}

// 01's number of what a write or contents come to: 0 where nothing is refused.
pub fn answer_number(answer: Result<(), Refusal>) -> u8
    ensures { result ≡ answer_number answer }
{
    match answer {
        Ok(()) => table::NONE,
        Err(refusal) => refusal.number(),
    }
}

// More octets than a record's storage are over-long even where the limit breaks a setup rule.
fn over_long(limit: Octets, octets: Octets) -> bool
    ensures { result ≡ over_long limit octets }
{
    MOST_OCTETS < octets.0 || limit.0 < octets.0
}

impl Attributes {
    // Whether the record takes this data, and how many characters it then has: 0 for a raw record.
    pub fn acceptable(self, data: &[u8]) -> Result<Characters, Refusal>
        ensures { answer_of_judged result ≡ acceptable self «data».now }
    {
        if over_long(self.limit, Octets(data.len())) {
            return Err(Refusal::TooLong);
        }
        let Kind::Label(limit) = self.kind else {
            return Ok(Characters(0));
        };
        let Ok(characters) = label::measure(data) else {
            return Err(Refusal::IllFormed);
        };
        if limit.0 < characters.0 {
            return Err(Refusal::TooManyCharacters);
        }
        Ok(characters)
    }
}

impl Record {
    // What the record holds. A length over the storage, which breaks a setup rule, is the whole storage.
    pub fn contents(&self) -> &[u8]
        ensures { result.now ≡ contents self.now }
    {
        &self.storage[..self.length.0.min(MOST_OCTETS)]
    }

    // The contents as data for the record, after the length that it states, which may break a rule too.
    pub fn contents_answer(self) -> Result<Characters, Refusal>
        ensures { answer_of_judged result ≡ contents_answer self }
    {
        if over_long(self.attributes.limit, self.length) {
            return Err(Refusal::TooLong);
        }
        self.attributes.acceptable(self.contents())
    }
}
