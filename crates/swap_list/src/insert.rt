// A record put into its place in copies of heads and data, and the copies taken over where their file is accepted.
ghost use Rattle.std.specs.Prelude.{◌≡◌, ◌+◌, ◌%◌, ◌≤◌, length};
ghost use Rattle.octets.specs.Splice.{fronted};
ghost use Rattle.swap_write.specs.Heads.{head_size};
ghost use Rattle.swap_list.specs.Adding.{heads_size, answer_of_added, inserted, taken_over};

use crate::RecordList;
use numbers::Octets;
use swap::Fault;

// A piece between the octets before an offset and those from it on, at the front of dst; after all of them where the offset is past the end.
pub(crate) fn insert(dst: &mut [u8], src: &[u8], at: usize, piece: &[u8])
    requires { length src.now + length piece.now ≤ length dst.old }
    ensures { dst.new ≡ fronted (inserted src.now at piece.now) dst.old }
{
    let cut = at.min(src.len());
    octets::put(dst, 0, &src[..cut]);
    octets::put(dst, cut, piece);
    octets::put(dst, cut + piece.len(), &src[cut..]);
}

// Takes over other heads and contents where their file would be accepted.
pub(crate) fn keep(
    heads: &mut [u8],
    contents: &mut [u8],
    new_heads: &[u8],
    new_contents: &[u8],
) -> Result<RecordList, Fault>
    requires { (length heads.old ≡ heads_size) × (length new_heads.now % head_size ≡ 0) × (length new_contents.now ≤ length contents.old) }
    ensures { record { answer = answer_of_added result; heads = heads.new; contents = contents.new } ≡ taken_over new_heads.now new_contents.now heads.old contents.old }
{
    let records = swap_write::verdict(new_heads, new_contents)?;
    octets::put(heads, 0, new_heads);
    octets::put(contents, 0, new_contents);
    Ok(RecordList {
        records,
        octets: Octets(new_contents.len()),
    })
}
