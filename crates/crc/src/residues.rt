// The polynomial A(X) of octets by the factors of D(X) = (X + 1) (X^15 + X + 1). A word holds 64 coefficients, bit 0 that of X^63.
ghost use Rattle.std.specs.Prelude.{◌≡◌, ◌≤◌, ◌<◌, length};
ghost use Rattle.computed.specs.Steps.{value};
ghost use Rattle.crc.specs.Residues.{folded, moved, parity_part, check_key_of, Represent};

// A(X) by X^15 + X + 1 and, as a word with the same sum of coefficients, by X + 1.
#[derive(Clone, Copy)]
pub(crate) struct Residues {
    pub(crate) word: u64,
    pub(crate) parity: u64,
}

// The coefficients of at most eight octets; the last bit transmitted is that of X^0.
fn word_of(s: &[u8]) -> u64
    requires { length s.now ≤ 8 }
    ensures { Represent result result s.now }
{
    let mut word: u64 = 0;
    for (i, octet) in s.iter().enumerate() {
        word ^= u64::from(*octet) << (64 - 8 * (s.len() - i));
    }
    word
}

// The powers from X^n on, by X^n = X^k + 1.
fn folded(word: u64, n: u32, k: u32) -> u64
    requires { (0 < n) × (n < 64) × (k < 64) }
    ensures { result ≡ value (folded n k) word }
{
    let high = word << n;
    ((word >> (64 - n)) << (64 - n)) ^ high ^ (high >> k)
}

// The product with X^j + X^k; X^30 = X^2 + 1 makes room for it.
pub(crate) fn moved(word: u64, j: u32, k: u32) -> u64
    requires { (j < 64) × (k < 64) }
    ensures { result ≡ value (moved j k) word }
{
    let low = folded(word, 30, 2);
    (low >> j) ^ (low >> k)
}

// The residues of at most sixteen octets: X^64 = X^8 + X^4 moves the first ones on.
pub(crate) fn residues_of(s: &[u8]) -> Residues
    requires { length s.now ≤ 16 }
    ensures { Represent result.word result.parity s.now }
{
    if s.len() <= 8 {
        let word = word_of(s);
        return Residues { word, parity: word };
    }
    let (first, last) = s.split_at(s.len() - 8);
    let first = word_of(first);
    let last = word_of(last);
    Residues {
        word: moved(first, 8, 4) ^ last,
        parity: first ^ last,
    }
}

// X^15 + X + 1 where the sum of the coefficients is 1. By X + 1 every power of X is 1, so all are added to that of X^0, half of them at a time.
fn parity_part(parity: u64) -> u64
    ensures { result ≡ value parity_part parity }
{
    let by_32 = parity ^ (parity << 32);
    let by_16 = by_32 ^ (by_32 << 16);
    let by_8 = by_16 ^ (by_16 << 8);
    let by_4 = by_8 ^ (by_8 << 4);
    let by_2 = by_4 ^ (by_4 << 2);
    let sum = (by_2 ^ (by_2 << 1)) & 0x8000000000000000;
    sum ^ (sum >> 1) ^ (sum >> 15)
}

// The check key: A(X) X^16 is (X + 1) X A(X) by X^15 + X + 1, and the sum of the coefficients by X + 1.
pub(crate) fn check_key_of(word: u64, parity: u64) -> u16
    ensures { result ≡ check_key_of word parity }
{
    let lowest = folded(folded(folded(word, 30, 2) >> 1, 15, 1), 15, 1);
    let part = parity_part(parity);
    ((lowest >> 48) as u16) ^ ((lowest >> 49) as u16) ^ ((part >> 48) as u16)
}
