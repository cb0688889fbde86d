// The items of a record, judged in file order.
ghost use Rattle.std.specs.Prelude.{◌≡◌, ◌+◌, ◌≤◌, length, take};
ghost use Rattle.swap.specs.Record.{rank_of};
ghost use Rattle.swap.specs.Cursor.{item_at, content_at};

use crate::file::Fault;
use crate::kind::{Kind, fits_kind, length_limit};
use number::Number;
use numbers::Octets;

// Where a record stands in a file: from at on, its data from another offset on.
#[derive(Clone, Copy, Debug, PartialEq, Eq)]
pub struct Entry {
    pub at: Octets,
    pub tab: u8,
    pub kind: Kind,
    pub from: Octets,
    pub length: Octets,
}

// The first seven octets as one number, the first highest.
pub fn rank(octets: &[u8]) -> u64
    ensures { result ≡ rank_of (take 7 octets.now) }
{
    let front = &octets[..octets.len().min(7)];
    let mut number = 0;
    for &octet in front {
        number = number * 256 + u64::from(octet);
    }
    number
}

// The items from an offset on, of a record that may have no lower rank than this.
pub(crate) fn item_at(file: &[u8], at: usize, least: u64) -> Result<Entry, Fault>
    requires { at ≤ length file.now }
    ensures { result ≡ item_at least file.now at }
{
    let octets = &file[at..];
    if octets.len() < 7 || rank(octets) < least {
        return Err(Fault(Octets(at)));
    }
    if octets.len() < 8 {
        return Err(Fault(Octets(at + 7)));
    }
    let Ok(kind) = Kind::try_from(octets[7]) else {
        return Err(Fault(Octets(at + 7)));
    };
    content_at(file, at, kind)
}

// The length and the data of a record of this kind.
fn content_at(file: &[u8], at: usize, kind: Kind) -> Result<Entry, Fault>
    requires { at + 8 ≤ length file.now }
    ensures { result ≡ content_at kind file.now at }
{
    let start = Octets(at + 8);
    let Some(Number { value, next }) = number::read(file, start) else {
        return Err(Fault(start));
    };
    let count = value as usize;
    let from = next.0;
    if length_limit(kind).0 < count {
        return Err(Fault(start));
    }
    if file.len() - from < count || !fits_kind(kind, &file[from..from + count]) {
        return Err(Fault(next));
    }
    Ok(Entry {
        at: Octets(at),
        tab: file[at + 6],
        kind,
        from: next,
        length: Octets(count),
    })
}
