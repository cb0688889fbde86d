// The reader's verdict on the would-be file, from the heads and the data alone.
ghost use Rattle.std.specs.Prelude.{◌≡◌, ◌+◌, ◌*◌, ◌≤◌, ◌<◌, length};
ghost use Rattle.swap.specs.Reading.{answer_of_verdict, verdict_of, answer_of_listing, read_records};
ghost use Rattle.number.specs.Groups.{encoded};
ghost use Rattle.swap.specs.Record.{file_limit};
ghost use Rattle.swap_write.specs.Heads.{head_size, body_of, file_of};
ghost use Rattle.swap_write.specs.Heading.{head_judged, data_judged};

use crate::size::{HEAD_SIZE, head_length, width_of};
use numbers::Octets;
use swap::file::COUNT_LIMIT;
use swap::item::rank;
use swap::kind::{Kind, fits_kind, length_limit};
use swap::{Fault, RecordCount};

// How far from a record's start its first bad item stands.
#[derive(Clone, Copy, Debug, PartialEq, Eq)]
pub struct BadItem(pub Octets);

// The verdict on a would-be file that is not too long.
pub(crate) fn judge(heads: &[u8], contents: &[u8]) -> Result<RecordCount, Fault>
    requires { length (file_of heads.now contents.now) ≤ file_limit }
    ensures { answer_of_verdict result ≡ verdict_of (file_of heads.now contents.now) }
{
    let count = heads.len() / HEAD_SIZE;
    if COUNT_LIMIT < count {
        return Err(Fault(Octets(0)));
    }
    judge_heads(heads, contents, count)
}

// So many heads with their data, and nothing left over.
fn judge_heads(heads: &[u8], contents: &[u8], count: usize) -> Result<RecordCount, Fault>
    requires { (count * head_size ≤ length heads.now) × (length (encoded count) + length (body_of count heads.now contents.now) ≤ file_limit) }
    ensures { answer_of_verdict result ≡ answer_of_listing (read_records count 0 (length (encoded count)) (body_of count heads.now contents.now)) }
{
    let mut heads_left = heads;
    let mut data_left = contents;
    let mut at = width_of(count);
    let mut least = 0;
    for _judged in 0..count {
        let length = match judge_head(heads_left, data_left, least) {
            Ok(stated) => stated.0,
            Err(bad) => return Err(Fault(Octets(at + bad.0.0))),
        };
        least = rank(heads_left) + 1;
        at += 8 + width_of(length) + length;
        heads_left = &heads_left[HEAD_SIZE..];
        data_left = &data_left[length..];
    }
    if !heads_left.is_empty() || !data_left.is_empty() {
        return Err(Fault(Octets(at)));
    }
    Ok(RecordCount(count))
}

// The octets of data of the head at the front, with the data at the front of the contents.
fn judge_head(heads: &[u8], contents: &[u8], least: u64) -> Result<Octets, BadItem>
    requires { head_size ≤ length heads.now }
    ensures { result ≡ head_judged least heads.now contents.now }
{
    if rank(heads) < least {
        return Err(BadItem(Octets(0)));
    }
    let Ok(kind) = Kind::try_from(heads[7]) else {
        return Err(BadItem(Octets(7)));
    };
    judge_data(kind, head_length(heads), contents)
}

// A length and the data of a record of this kind.
fn judge_data(kind: Kind, stated: Octets, contents: &[u8]) -> Result<Octets, BadItem>
    ensures { result ≡ data_judged kind stated.0 contents.now }
{
    if length_limit(kind).0 < stated.0 {
        return Err(BadItem(Octets(8)));
    }
    if contents.len() < stated.0 || !fits_kind(kind, &contents[..stated.0]) {
        return Err(BadItem(Octets(8 + width_of(stated.0))));
    }
    Ok(stated)
}
