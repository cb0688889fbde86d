// The permutations of a block and of a key, by exchanges of bits.
ghost use Rattle.std.specs.Prelude.{◌≡◌};
ghost use Rattle.des.specs.Tables.{IP, inverse_ip, PC1};
ghost use Rattle.des.specs.Des.{bits_of, permuted};
ghost use Rattle.des.specs.Words.{Word};
ghost use Rattle.des.specs.Exchanges.{reversed};
ghost use Rattle.computed.specs.Steps.{value};

use crate::words;

// The bits that IP exchanges with those 3, 6, 9, 18 and 36 places to their left.
const BY_3: u64 = 0x1111111111111111;

const BY_6: u64 = 0x0303030303030303;

const BY_9: u64 = 0x0055005500550055;

const BY_18: u64 = 0x0000333300003333;

const BY_36: u64 = 0x000000000F0F0F0F;

// The initial permutation IP.
pub(crate) fn initial(w: u64) -> u64
    ensures { Word 64 (permuted IP (bits_of 64 w)) result }
{
    let a = words::exchange(3, BY_3, w);
    let b = words::exchange(6, BY_6, a);
    let c = words::exchange(9, BY_9, b);
    let d = words::exchange(18, BY_18, c);
    words::exchange(36, BY_36, d)
}

// The inverse of IP: the same exchanges in the reverse order.
// Written out: a fold over a table of pairs, read forwards and backwards, is no plainer than two times five lines.
pub(crate) fn inverse_initial(w: u64) -> u64
    ensures { Word 64 (permuted inverse_ip (bits_of 64 w)) result }
{
    let a = words::exchange(36, BY_36, w);
    let b = words::exchange(18, BY_18, a);
    let c = words::exchange(9, BY_9, b);
    let d = words::exchange(6, BY_6, c);
    words::exchange(3, BY_3, d)
}

// The octets of a word in the reverse order.
fn reversed(w: u64) -> u64
    ensures { result ≡ value reversed w }
{
    (w >> 56)
        ^ ((w >> 40) & 0xFF00)
        ^ ((w >> 24) & 0xFF0000)
        ^ ((w >> 8) & 0xFF000000)
        ^ ((w << 8) & 0xFF00000000)
        ^ ((w << 24) & 0xFF0000000000)
        ^ ((w << 40) & 0xFF000000000000)
        ^ (w << 56)
}

// Permuted choice 1: the bits of the eight octets as a matrix, turned about its diagonal, and its rows in the order of C and D.
pub(crate) fn choice_1(w: u64) -> u64
    ensures { Word 56 (permuted PC1 (bits_of 64 w)) result }
{
    let a = words::exchange(7, 0x00AA00AA00AA00AA, reversed(w));
    let b = words::exchange(14, 0x0000CCCC0000CCCC, a);
    let c = words::exchange(28, 0x00000000F0F0F0F0, b);
    ((c >> 8) & 0xFFFFFFF0000000)
        ^ ((c << 12) & 0xFF00000)
        ^ ((c >> 4) & 0xFF000)
        ^ ((c >> 20) & 0xFF0)
        ^ ((c >> 32) & 0xF)
}
