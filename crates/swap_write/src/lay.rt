// Laying the octets of a file into a buffer.
ghost use Rattle.std.specs.Prelude.{◌≡◌, ◌++◌, ◌+◌, ◌≤◌, length};
ghost use Rattle.numbers.specs.Answer.{given};
ghost use Rattle.number.specs.Groups.{encoded};
ghost use Rattle.octets.specs.Splice.{spliced, fronted};
ghost use Rattle.swap.specs.declared.file.RecordCount.{RecordCount};
ghost use Rattle.swap.specs.Reading.{verdict_of};
ghost use Rattle.swap_write.specs.Heads.{head_size, head_length, front_octets, file_of};

use crate::size::{HEAD_SIZE, head_length, width_of};
use numbers::Octets;

// The whole of an accepted file, at the front of a buffer that is long enough.
pub(crate) fn lay(heads: &[u8], contents: &[u8], buffer: &mut [u8])
    requires contents_value { (count : RecordCount) × (verdict_of (file_of heads.now contents.now) ≡ given count) }
    requires contents_in_bounds { length (file_of heads.now contents.now) ≤ length buffer.old }
    ensures { buffer.new ≡ fronted (file_of heads.now contents.now) buffer.old }
{
    let count = heads.len() / HEAD_SIZE;
    let _ = number::write(buffer, Octets(0), count as u32);
    let mut heads_left = heads;
    let mut data_left = contents;
    let mut at = width_of(count);
    for _laid in 0..count {
        let length = head_length(heads_left).0;
        lay_record(heads_left, &data_left[..length], buffer, at);
        at += 8 + width_of(length) + length;
        heads_left = &heads_left[HEAD_SIZE..];
        data_left = &data_left[length..];
    }
}

// A record from an offset on: the fields of the head at the front, and the data.
fn lay_record(heads: &[u8], content: &[u8], buffer: &mut [u8], at: usize)
    requires { (head_size ≤ length heads.now) × (at + 8 + length (encoded (head_length heads.now)) + length content.now ≤ length buffer.old) }
    ensures { buffer.new ≡ spliced buffer.old at (front_octets heads.now ++ content.now) }
{
    let length = head_length(heads).0;
    octets::put(buffer, at, &heads[..8]);
    let _ = number::write(buffer, Octets(at + 8), length as u32);
    octets::put(buffer, at + 8 + width_of(length), content);
}
