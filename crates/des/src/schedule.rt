// The key schedule KS. C0 and D0 are held twice each, one after the other in a word, so that 28 bits of the word are the half after any number of
// left shifts.
ghost use Rattle.std.specs.Prelude.{◌≡◌, List, ◌++◌, ℕ, ◌^◌, ◌≤◌, ◌<◌, get_or};
ghost use Rattle.des.specs.Des.{both_shifted, key_halves};
ghost use Rattle.des.specs.Words.{Word, HalvesHeld, KeyHeld, shifts_up_to, order};

use crate::{permuting, words};

// C and D are numbers below 2 to the power 28.
pub(crate) const KEY_HALF: u64 = 0x10000000;

// C0 and D0.
pub(crate) fn key_halves(key: [u8; 8]) -> u64
    ensures { Word 56 (key_halves key 0) result }
{
    permuting::choice_1(words::word(key))
}

// A half of 28 bits twice, one after the other.
pub(crate) fn twice(half: u64) -> u64
    requires { half < 2 ^ 28 }
    ensures { (b : List ℕ) → Word 28 b half → Word 56 (b ++ b) result }
{
    half * KEY_HALF + half
}

// The left shifts of C and D up to round n. A match: with a static table a block took one part in a hundred more time, and more stack.
fn shifts_up_to(n: u64) -> u64
    requires { n < 17 }
    ensures { result ≡ get_or shifts_up_to n 0 }
{
    match n {
        0 => 0,
        1 => 1,
        2 => 2,
        3 => 4,
        4 => 6,
        5 => 8,
        6 => 10,
        7 => 12,
        8 => 14,
        9 => 15,
        10 => 17,
        11 => 19,
        12 => 21,
        13 => 23,
        14 => 25,
        15 => 27,
        16 => 28,
        _ => unreachable!(),
    }
}

// The left shifts that lead from C0 and D0 to C and D of round n. In deciphering it has the round key of the round that is as far from the end.
fn shifts_to(deciphering: bool, n: u64) -> u64
    requires { (0 < n) × (n ≤ 16) }
    ensures { (result ≤ 28) × ((key : List ℕ) → both_shifted result (key_halves key 0) ≡ key_halves key (order deciphering n)) }
{
    if deciphering {
        shifts_up_to(17 - n)
    } else {
        shifts_up_to(n)
    }
}

// The round key of round n, from C0 and D0 in hand.
pub(crate) fn round_key(deciphering: bool, n: u64, c: u64, d: u64) -> u64
    requires { (0 < n) × (n ≤ 16) }
    ensures { (key : List ℕ) → HalvesHeld key c d → KeyHeld key deciphering n result }
{
    let behind = 28 - shifts_to(deciphering, n);
    des_choices::with_gaps(c >> behind, d >> behind)
}
