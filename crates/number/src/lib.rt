#![tactic(auto)]
// Numbers in groups of seven bits, as the swap file has them (01, Swap file). Any number below 2^32 is taken; each caller tests its own limit.
ghost use Rattle.std.specs.Prelude.{◌≡◌, length};
ghost use Rattle.number.specs.Answers.{answer_of_reading, answer_of_written};
ghost use Rattle.number.specs.Groups.{encoded, read_at, written_at, with_number_at};

use numbers::Octets;

// A number of 32 bits has five groups at most.
const MOST_GROUPS: usize = 5;

// A number that stands in its shortest form, with the offset after it.
#[derive(Clone, Copy, Debug, PartialEq, Eq)]
pub struct Number {
    pub value: u32,
    pub next: Octets,
}

// What is written does not fit.
#[derive(Clone, Copy, Debug, PartialEq, Eq)]
pub struct Short;

// The number whose octets start at an offset. An offset past the end has none.
pub fn read(octets: &[u8], at: Octets) -> Option<Number>
    ensures { answer_of_reading at result ≡ read_at octets.now at }
{
    let rest = octets.get(at.0..)?;
    let mut value: u64 = 0;
    let mut scale: u64 = 1;
    for groups in 0..MOST_GROUPS {
        let octet = u64::from(*rest.get(groups)?);
        if octet < 128 {
            // A zero behind other groups makes a longer form than needed.
            if octet == 0 && 0 < groups {
                return None;
            }
            return Some(Number {
                value: u32::try_from(value + octet * scale).ok()?,
                next: Octets(at.0 + groups + 1),
            });
        }
        value += octet % 128 * scale;
        scale *= 128;
    }
    None
}

// How many octets a number takes.
pub fn width(n: u32) -> Octets
    ensures { result.0 ≡ length (encoded n) }
{
    Octets(match n {
        0..=0x7F => 1,
        0x80..=0x3FFF => 2,
        0x4000..=0x1F_FFFF => 3,
        0x20_0000..=0xFFF_FFFF => 4,
        _ => 5,
    })
}

// Writes a number's octets from an offset on; where they do not fit, nothing is written.
pub fn write(octets: &mut [u8], at: Octets, n: u32) -> Result<Octets, Short>
    ensures { (answer_of_written result ≡ written_at octets.old at n) × (octets.new ≡ with_number_at octets.old at n) }
{
    let size = width(n).0;
    if octets.len() < size || octets.len() - size < at.0 {
        return Err(Short);
    }
    let last = at.0 + size - 1;
    let mut rest = n;
    for next in at.0..last {
        octets[next] = (rest % 128 + 128) as u8;
        rest /= 128;
    }
    octets[last] = rest as u8;
    Ok(Octets(last + 1))
}
