#![tactic(auto)]
// Text written into a lent buffer from an offset on: words, octets in hexadecimal digits, numbers in decimal digits. Each call gives the offset after
// what it wrote; where the text does not fit, it leaves the buffer and gives the offset as it was.
ghost use Rattle.std.specs.Prelude.{◌≡◌, ◌++◌, ◌+◌, ◌*◌, ◌≤◌, ◌<◌, length, drop};
ghost use Rattle.text.specs.Text.{digit_of, hex_text, decimal_text, Written};

use numbers::Octets;

// The digits of a number at the end of an array, from an offset on.
#[derive(Clone, Copy)]
struct Decimal {
    digits: [u8; 20],
    from: usize,
    ghost within: { from ≤ 20 },
}

impl Decimal {
    // Laid from the last digit on.
    // No range: it goes on until the number is used up.
    fn of(n: u64) -> Decimal
        ensures { drop result.from result.digits ≡ decimal_text n }
    {
        let mut digits = [0u8; 20];
        let mut from = 20;
        let mut rest = n;
        while 10 <= rest {
            from -= 1;
            digits[from] = b'0' + (rest % 10) as u8;
            rest /= 10;
        }
        from -= 1;
        digits[from] = b'0' + rest as u8;
        Decimal { digits, from }
    }

    fn text(&self) -> &[u8]
        ensures { result.now ≡ drop self.now.from self.now.digits }
    {
        &self.digits[self.from..]
    }
}

// Words.
// The buffer is lent and the offset goes in and out, as docs/STATEMENTS.md has these calls.
pub fn put_words(buffer: &mut [u8], at: Octets, words: &[u8]) -> Octets
    ensures { Written buffer.old at.0 words.now result.0 buffer.new }
{
    if buffer.len() < words.len() || buffer.len() - words.len() < at.0 {
        return at;
    }
    octets::put(buffer, at.0, words);
    Octets(at.0 + words.len())
}

// Words, and the hexadecimal digits of octets after them.
pub fn put_hex(buffer: &mut [u8], at: Octets, words: &[u8], octets: &[u8]) -> Octets
    ensures { Written buffer.old at.0 (words.now ++ hex_text octets.now) result.0 buffer.new }
{
    if buffer.len() < words.len() {
        return at;
    }
    let room = buffer.len() - words.len();
    if room < at.0 || (room - at.0) / 2 < octets.len() {
        return at;
    }
    let next = put_words(buffer, at, words);
    put_digits(buffer, next, octets)
}

// Words, and a number after them.
pub fn put_number(buffer: &mut [u8], at: Octets, words: &[u8], n: u64) -> Octets
    ensures { Written buffer.old at.0 (words.now ++ decimal_text n) result.0 buffer.new }
{
    put_both(buffer, at, words, Decimal::of(n).text())
}

// Words, and other words after them.
fn put_both(buffer: &mut [u8], at: Octets, first: &[u8], second: &[u8]) -> Octets
    ensures { Written buffer.old at.0 (first.now ++ second.now) result.0 buffer.new }
{
    if buffer.len() < first.len() {
        return at;
    }
    let room = buffer.len() - first.len();
    if room < second.len() || room - second.len() < at.0 {
        return at;
    }
    let next = put_words(buffer, at, first);
    put_words(buffer, next, second)
}

// Two digits for each octet, where they fit.
fn put_digits(buffer: &mut [u8], at: Octets, octets: &[u8]) -> Octets
    requires { at.0 + 2 * length octets.now ≤ length buffer.old }
    ensures { Written buffer.old at.0 (hex_text octets.now) result.0 buffer.new }
{
    let mut next = at.0;
    for octet in octets {
        octets::put(buffer, next, &[digit(octet / 16), digit(octet % 16)]);
        next += 2;
    }
    Octets(next)
}

// A hexadecimal digit.
fn digit(n: u8) -> u8
    requires { n < 16 }
    ensures { result ≡ digit_of n }
{
    if n < 10 { b'0' + n } else { b'A' + (n - 10) }
}
