// Writing data into a record.
ghost use Rattle.std.specs.Prelude.{◌≡◌, ◌≤◌, ◌<◌, length};
ghost use Rattle.records.specs.Sizes.{most_records, most_octets};
ghost use Rattle.records.specs.Numbers.{answer_of_found};
ghost use Rattle.records.specs.Finding.{attributes_of};
ghost use Rattle.records.specs.Writing.{opens, grant, hold, store, write, Writes};

use crate::{Attributes, Cause, Record, Records, Refusal, Written};
use numbers::Octets;

impl Cause {
    // To the meter every record is open.
    fn opens(self, attributes: Attributes) -> bool
        ensures { result ≡ opens self attributes }
    {
        match self {
            Cause::Meter => true,
            Cause::Programmed(_) => attributes.programming,
            Cause::Transferred(_) | Cause::Broadcast(_) => attributes.transfer,
        }
    }
}

impl Record {
    // The data over the front of the storage. The octets after it stay.
    fn hold(self, data: &[u8]) -> Record
        requires { length «data».now ≤ most_octets }
        ensures { result ≡ hold self «data».now }
    {
        let mut storage = self.storage;
        octets::put(&mut storage, 0, data);
        Record {
            length: Octets(data.len()),
            storage,
            ..self
        }
    }
}

impl Records {
    fn store(mut self, i: usize, data: &[u8]) -> Records
        requires index { i < most_records }
        requires fits { length «data».now ≤ most_octets }
        ensures { result ≡ store self i «data».now }
    {
        self.each[i] = self.each[i].hold(data);
        self
    }

    // The record that the write is granted for.
    fn grant(self, cause: Cause, tab: u8, data: &[u8]) -> Result<usize, Refusal>
        ensures { answer_of_found result ≡ grant (attributes_of self) cause tab «data».now }
    {
        let i = self.find(tab)?;
        let attributes = self.each[i].attributes;
        if !cause.opens(attributes) {
            return Err(Refusal::NotOpen);
        }
        attributes.acceptable(data)?;
        Ok(i)
    }

    // A write over the bus or by the meter: the record then holds the data, or all stays as it was.
    pub fn write(self, cause: Cause, tab: u8, data: &[u8]) -> Written
        ensures { Writes (write self cause tab «data».now) result }
    {
        match self.grant(cause, tab, data) {
            Ok(i) => Written {
                records: self.store(i, data),
                answer: Ok(()),
            },
            Err(refusal) => Written {
                records: self,
                answer: Err(refusal),
            },
        }
    }
}
