// Strings of 64 bits in a word, bit 1 the highest.
ghost use Rattle.std.specs.Prelude.{◌≡◌, ◌<◌};
ghost use Rattle.computed.specs.Steps.{value};
ghost use Rattle.des.specs.Des.{bits_of, bits, octets};
ghost use Rattle.des.specs.Words.{Word};
ghost use Rattle.des.specs.Exchanges.{exchange};

// Each bit of the mask exchanged with the bit s places to its left.
pub(crate) fn exchange(s: u64, mask: u64, w: u64) -> u64
    requires { s < 64 }
    ensures { result ≡ value (exchange s mask) w }
{
    let differing = (w ^ (w >> s)) & mask;
    w ^ differing ^ (differing << s)
}

// The 64 bits of eight octets.
pub(crate) fn word(octets: [u8; 8]) -> u64
    ensures { Word 64 (bits octets) result }
{
    u64::from_be_bytes(octets)
}

// The eight octets of a word.
pub(crate) fn octets(w: u64) -> [u8; 8]
    ensures { result ≡ octets 8 (bits_of 64 w) }
{
    w.to_be_bytes()
}
