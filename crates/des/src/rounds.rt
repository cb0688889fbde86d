// The rounds, on a block LR in one word of 64 bits.
ghost use Rattle.std.specs.Prelude.{◌≡◌, List, ℕ, ◌^◌, ◌<◌};
ghost use Rattle.des.specs.Des.{bits_of, permuted, f, rounds, exchanged, round_key};
ghost use Rattle.des.specs.Words.{Word, order};
ghost use Rattle.des.specs.Windows.{wrapped, WithGaps};

use crate::schedule;

// L and R are numbers below 2 to the power 32.
const BLOCK_HALF: u64 = 0x100000000;

// The blocks of a round key for boxes 1, 3, 5 and 7 stand so many places above those for the others.
const UPPER_PLACES: u64 = 30;

// R between its last bit and its first: the six bits that E selects for each box stand four places apart.
fn windows(r: u64) -> u64
    requires { r < 2 ^ 32 }
    ensures { Word 34 (permuted wrapped (bits_of 32 r)) result }
{
    ((r & 1) << 33) ^ (r << 1) ^ (r >> 31)
}

// The cipher function f, with a round key that has gaps.
fn f(r: u64, k: u64) -> u64
    requires { r < 2 ^ 32 }
    ensures { (K : List ℕ) → WithGaps K k → Word 32 (f (bits_of 32 r) K) result }
{
    let w = windows(r);
    des_boxes::through_p(w ^ (k >> UPPER_PLACES), w ^ k) as u64
}

// Sixteen rounds. Each makes its own round key, so one round key is held at a time.
pub(crate) fn rounds(deciphering: bool, key: [u8; 8], input: u64) -> u64
    ensures { Word 64 (rounds (λ n. round_key key (order deciphering n)) 16 (bits_of 64 input)) result }
{
    let cd = schedule::key_halves(key);
    let c = schedule::twice(cd / schedule::KEY_HALF);
    let d = schedule::twice(cd % schedule::KEY_HALF);
    let mut l = input / BLOCK_HALF;
    let mut r = input % BLOCK_HALF;
    for n in 0..16 {
        let k = schedule::round_key(deciphering, n + 1, c, d);
        let next = l ^ f(r, k);
        l = r;
        r = next;
    }
    l * BLOCK_HALF + r
}

// The halves of 32 bits exchanged.
pub(crate) fn exchanged(lr: u64) -> u64
    ensures { Word 64 (exchanged (bits_of 64 lr)) result }
{
    lr % BLOCK_HALF * BLOCK_HALF + lr / BLOCK_HALF
}
