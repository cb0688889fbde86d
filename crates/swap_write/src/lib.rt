#![tactic(auto)]
// Writing a swap file from records in two lent slices: heads of ten octets, and their data one after the other (01, Swap file).
ghost use Rattle.std.specs.Prelude.{◌≡◌};
ghost use Rattle.swap.specs.Reading.{answer_of_verdict, verdict_of};
ghost use Rattle.swap_write.specs.Heads.{file_of};
ghost use Rattle.swap_write.specs.Writing.{answer_of_written, writing};

mod judge;
mod lay;
pub mod size;

use numbers::Octets;
use size::file_size;
use swap::file::FILE_LIMIT;
use swap::{Fault, RecordCount};

// A file over the limit is bad at the limit.
const TOO_LONG: Fault = Fault(Octets(FILE_LIMIT));

// Why nothing is written: the file would be faulty, or the buffer is too short for it.
#[derive(Clone, Copy, Debug, PartialEq, Eq)]
pub enum Refusal {
    Fault(Fault),
    Short,
}

impl From<Fault> for Refusal {
    ghost use Rattle.swap_write.specs.declared.Refusal.TheVariants as refusal;

    ghost from_gives = { λ fault r. r ≡ refusal.Fault fault };

    fn from(fault: Fault) -> Refusal {
        Refusal::Fault(fault)
    }
}

// The reader's verdict on the file that would be written.
pub fn verdict(heads: &[u8], contents: &[u8]) -> Result<RecordCount, Fault>
    ensures { answer_of_verdict result ≡ verdict_of (file_of heads.now contents.now) }
{
    file_size(heads, contents).ok_or(TOO_LONG)?;
    judge::judge(heads, contents)
}

// Writes the file at the front of a buffer, and gives its length; a refusal leaves the buffer as it is.
// Heads and data are two slices, since a C program lends two arrays.
pub fn write(heads: &[u8], contents: &[u8], buffer: &mut [u8]) -> Result<Octets, Refusal>
    ensures { (answer_of_written result ≡ (writing heads.now contents.now buffer.old).answer) × (buffer.new ≡ (writing heads.now contents.now buffer.old).buffer) }
{
    let length = file_size(heads, contents).ok_or(TOO_LONG)?;
    judge::judge(heads, contents)?;
    if buffer.len() < length.0 {
        return Err(Refusal::Short);
    }
    lay::lay(heads, contents, buffer);
    Ok(length)
}
