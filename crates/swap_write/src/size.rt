// The length of the would-be file.
ghost use Rattle.std.specs.Prelude.{◌≡◌, length};
ghost use Rattle.number.specs.Groups.{encoded};
ghost use Rattle.swap_write.specs.Heads.{head_length, file_of};
ghost use Rattle.swap_write.specs.Writing.{size_of, size_after};

use numbers::Octets;
use octets::octet;
use swap::file::FILE_LIMIT;

// The octets of a head.
pub const HEAD_SIZE: usize = 10;

// The length that the head at the front states; octets that are not there count as 0.
#[tactic(auto, unfolding(crate::specs::Heads::head_length))]
pub fn head_length(heads: &[u8]) -> Octets
    ensures { result.0 ≡ head_length heads.now }
{
    Octets(usize::from(u16::from_le_bytes([octet(heads, 8), octet(heads, 9)])))
}

// How many octets a number takes: five from 2^28 on, whatever it is.
pub(crate) fn width_of(n: usize) -> usize
    ensures { result ≡ length (encoded n) }
{
    match u32::try_from(n) {
        Ok(n) => number::width(n).0,
        Err(_) => 5,
    }
}

// The length of a file within the limit. Sums early, so that no sum grows past the limit and one record.
pub(crate) fn file_size(heads: &[u8], contents: &[u8]) -> Option<Octets>
    ensures { result ≡ size_of (file_of heads.now contents.now) }
{
    let count = heads.len() / HEAD_SIZE;
    let mut heads_left = heads;
    let mut data_left = contents;
    let mut sum = width_of(count);
    for _summed in 0..count {
        if FILE_LIMIT < sum {
            return None;
        }
        let length = head_length(heads_left).0;
        sum += 8 + width_of(length);
        if data_left.len() < length {
            return after(sum, data_left.len());
        }
        sum += length;
        heads_left = &heads_left[HEAD_SIZE..];
        data_left = &data_left[length..];
    }
    after(sum, heads_left.len() + data_left.len())
}

// So many octets and more.
fn after(sum: usize, more: usize) -> Option<Octets>
    ensures { result ≡ size_after sum more }
{
    if FILE_LIMIT < sum || FILE_LIMIT - sum < more {
        return None;
    }
    Some(Octets(sum + more))
}
