// The checks of a whole frame, in the order of 01, Receiving.
ghost use Rattle.std.specs.Prelude.{◌≡◌, cond, length, get_or, eqb};
ghost use Rattle.crc.specs.AnnexE.{divides};
ghost use Rattle.frame.specs.declared.checks.Check.TheVariants.{Passes, Fails};
ghost use Rattle.frame.specs.Sizes.{com_at};
ghost use Rattle.frame.specs.Codes.{answer_of_lookup, command_of};
ghost use Rattle.frame.specs.Layout.{layout_of, can_have};
ghost use Rattle.frame.specs.Checks.{fault_number, answer_of_stated, answer_of_verdict, stated_by, judged, inspected};

use crate::codes::{Command, UnknownCommand};
use crate::layout::{layout_of, places_of};
use crate::sizes::{COM_AT, CRC_WIDTH, LONGEST_FRAME, SHORTEST_FRAME};
use numbers::{Octets, table};

// The answer of the checks that hand nothing on: 3, 2 and 5. The others hand on what they find. An enum of its own: 01 has answers of checks taken apart by let .. else.
#[derive(Clone, Copy, Debug, PartialEq, Eq)]
pub enum Check {
    Passes,
    Fails,
}

// Why a frame is bad.
#[derive(Clone, Copy, Debug, PartialEq, Eq)]
pub enum Fault {
    OutOfRange,
    Crc,
    Cut,
    Unknown,
    Length,
}

impl Fault {
    // No From: `number` says which octet of an answer it is.
    pub fn number(self) -> u8
        ensures { result ≡ fault_number self }
    {
        match self {
            Fault::OutOfRange => table::LENGTH_OUT_OF_RANGE,
            Fault::Crc => table::WRONG_CHECK_KEY,
            Fault::Cut => table::CUT_FRAME,
            Fault::Unknown => table::UNKNOWN_COMMAND,
            Fault::Length => table::IMPOSSIBLE_LENGTH,
        }
    }
}

// The check for 1: the whole length that N states.
pub fn stated_by(n: u8) -> Option<Octets>
    ensures { answer_of_stated result ≡ stated_by n }
{
    let whole = usize::from(n);
    (SHORTEST_FRAME..=LONGEST_FRAME)
        .contains(&whole)
        .then_some(Octets(whole))
}

// The check for 3: whether a slice is as long as its N says.
fn check_extent(frame: &[u8], whole: Octets) -> Check
    ensures { result ≡ cond (eqb (length frame.now) whole.0) Passes Fails }
{
    if frame.len() == whole.0 {
        Check::Passes
    } else {
        Check::Fails
    }
}

// The check for 2.
fn check_crc(frame: &[u8]) -> Check
    ensures { result ≡ cond (divides frame.now) Passes Fails }
{
    if crc::divisible(frame) {
        Check::Passes
    } else {
        Check::Fails
    }
}

// The check for 4.
fn check_command(frame: &[u8]) -> Result<Command, UnknownCommand>
    ensures { answer_of_lookup result ≡ command_of (get_or frame.now com_at 0) }
{
    Command::try_from(octets::octet(frame, COM_AT))
}

// The check for 5: whether the command can have this length.
fn check_length(command: Command, frame: &[u8]) -> Check
    ensures { result ≡ cond (can_have (layout_of command) (length frame.now)) Passes Fails }
{
    let layout = layout_of(command);
    let fixed = places_of(layout).content.0 + CRC_WIDTH;
    if (fixed + layout.least.0..=fixed + layout.most.0).contains(&frame.len()) {
        Check::Passes
    } else {
        Check::Fails
    }
}

// The checks of a frame whose whole length has come: CRC (2), known command (4), length that this command can have (5).
pub fn judge(frame: &[u8]) -> Result<Command, Fault>
    ensures { answer_of_verdict result ≡ judged frame.now }
{
    let Check::Passes = check_crc(frame) else {
        return Err(Fault::Crc);
    };
    let Ok(command) = check_command(frame) else {
        return Err(Fault::Unknown);
    };
    let Check::Passes = check_length(command, frame) else {
        return Err(Fault::Length);
    };
    Ok(command)
}

// All checks of a whole frame in a slice: 1, then 3, then those of `judge`.
pub fn inspect(frame: &[u8]) -> Result<Command, Fault>
    ensures { answer_of_verdict result ≡ inspected frame.now }
{
    let Some(&n) = frame.first() else {
        return Err(Fault::Cut);
    };
    let Some(whole) = stated_by(n) else {
        return Err(Fault::OutOfRange);
    };
    let Check::Passes = check_extent(frame, whole) else {
        return Err(Fault::Cut);
    };
    judge(frame)
}
