#![tactic(auto)]
// Operations on octets that every crate above shares. Each is total: what it does out of range is stated too.
ghost use Rattle.std.specs.Prelude.{◌≡◌, reverse, get_or, replicate};
ghost use Rattle.octets.specs.Splice.{spliced};
ghost use Rattle.octets.specs.Part.{part_of};

// src over the octets of dst from offset at on; dst stays as it is where src does not fit there. A loop: copy_from_slice calls memmove, which
// no archive for C needs otherwise.
pub fn put(dst: &mut [u8], at: usize, src: &[u8])
    ensures { dst.new ≡ spliced dst.old at src.now }
{
    if dst.len() < src.len() {
        return;
    }
    if dst.len() - src.len() < at {
        return;
    }
    for (i, octet) in src.iter().enumerate() {
        dst[at + i] = *octet;
    }
}

// As `put`, with the octets of src in reverse order.
pub fn put_reversed(dst: &mut [u8], at: usize, src: &[u8])
    ensures { dst.new ≡ spliced dst.old at (reverse src.now) }
{
    if dst.len() < src.len() {
        return;
    }
    if dst.len() - src.len() < at {
        return;
    }
    for i in 0..src.len() {
        dst[at + i] = src[src.len() - 1 - i];
    }
}

// The octet of s at offset at; 0 past the end.
pub fn octet(s: &[u8], at: usize) -> u8
    ensures { result ≡ get_or s.now at 0 }
{
    s.get(at).copied().unwrap_or(0)
}

// The octets of s from one offset up to, not including, another; none where s has no such part.
pub fn part(s: &[u8], from: usize, to: usize) -> &[u8]
    ensures { result.now ≡ part_of s.now from to }
{
    s.get(from..to).unwrap_or(&[])
}

// The octets of s in an array, with zeros after them; zeros alone where there are more of them than the array has.
pub fn padded<const N: usize>(s: &[u8]) -> [u8; N]
    ensures { result ≡ spliced (replicate N 0) 0 s.now }
{
    let mut a = [0; N];
    put(&mut a, 0, s);
    a
}
