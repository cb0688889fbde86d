// The rules that setup lays down, and that every later call asks of the records.
ghost use Rattle.std.specs.Prelude.{◌≡◌};
ghost use Rattle.records.specs.Finding.{used, attributes_of};
ghost use Rattle.records.specs.Numbers.{answer_number};
ghost use Rattle.records.specs.Setup.{keeps_limits, all_keep_limits, tabs_apart, keeps_rules, contents_number, sound, empty};

use crate::finding::in_use;
use crate::sizes::{MOST_CHARACTERS, MOST_OCTETS, MOST_RECORDS};
use crate::{Attributes, Kind, Record, Records, Refusal};
use numbers::Octets;

impl Attributes {
    fn keeps_limits(self) -> bool
        ensures { result ≡ keeps_limits self }
    {
        let characters = match self.kind {
            Kind::Raw => 0,
            Kind::Label(limit) => limit.0,
        };
        self.limit.0 <= MOST_OCTETS && characters <= MOST_CHARACTERS
    }
}

impl Records {
    // From the last record to the first: the TABs of those behind are marked as seen.
    fn tabs_apart(self) -> bool
        ensures { result ≡ tabs_apart (attributes_of self) }
    {
        let mut seen = [false; 256];
        for i in (0..in_use(self.count)).rev() {
            let tab = usize::from(self.each[i].attributes.tab);
            if seen[tab] {
                return false;
            }
            seen[tab] = true;
        }
        true
    }

    fn all_keep_limits(self) -> bool
        ensures { result ≡ all_keep_limits (attributes_of self) }
    {
        self.used()
            .iter()
            .all(|record| record.attributes.keeps_limits())
    }

    // Setup's first test of the records (12).
    pub fn keeps_rules(self) -> bool
        ensures { result ≡ keeps_rules self }
    {
        self.count <= MOST_RECORDS && self.tabs_apart() && self.all_keep_limits()
    }

    // Setup's second test of the records: the first refusal in their order (7, 8, 9).
    pub fn contents_answers(self) -> Result<(), Refusal>
        ensures { answer_number result ≡ contents_number (used self) }
    {
        for record in self.used() {
            record.contents_answer()?;
        }
        Ok(())
    }

    // Both tests: what every later call asks of its records (12).
    pub fn sound(self) -> bool
        ensures { result ≡ sound self }
    {
        self.keeps_rules() && self.contents_answers().is_ok()
    }

    // No records, for a card that setup refused.
    pub fn empty() -> Records
        ensures { result ≡ empty }
    {
        let attributes = Attributes {
            tab: 0,
            kind: Kind::Raw,
            limit: Octets(0),
            readable: false,
            programming: false,
            transfer: false,
        };
        let record = Record {
            attributes,
            length: Octets(0),
            storage: [0; MOST_OCTETS],
        };
        Records {
            count: 0,
            each: [record; MOST_RECORDS],
        }
    }
}
