// How many vectors were run, and how many came out right each way.
use std::fmt;

#[derive(Clone, Copy, Default)]
pub(crate) struct Tally {
    pub(crate) vectors: u64,
    pub(crate) enciphered: u64,
    pub(crate) deciphered: u64,
}

impl Tally {
    // One vector, right or wrong each way.
    pub(crate) fn one(enciphered: bool, deciphered: bool) -> Tally {
        Tally {
            vectors: 1,
            enciphered: u64::from(enciphered),
            deciphered: u64::from(deciphered),
        }
    }

    // The sum of two tallies. No input is long enough for a count to wrap.
    pub(crate) fn plus(self, other: Tally) -> Tally {
        Tally {
            vectors: self.vectors.wrapping_add(other.vectors),
            enciphered: self.enciphered.wrapping_add(other.enciphered),
            deciphered: self.deciphered.wrapping_add(other.deciphered),
        }
    }
}

impl fmt::Display for Tally {
    fn fmt<W: fmt::Write>(&self, f: &mut fmt::Formatter<W>) -> fmt::Result {
        write!(
            f,
            "{} enciphered {} deciphered {}",
            self.vectors, self.enciphered, self.deciphered
        )
    }
}
