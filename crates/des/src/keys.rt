// DES's weak keys, each of which has one and the same round key in all sixteen rounds.
ghost use Rattle.std.specs.Prelude.{◌≡◌};
ghost use Rattle.octets.specs.Part.{same};
ghost use Rattle.des.specs.WeakKeys.{without_parity, weak};

// The keys of FIPS 74, each with one setting of its parity bits.
static WEAK_KEYS: [[u8; 8]; 4] = [
    [0x01; 8],
    [0xFE; 8],
    [0xE0, 0xE0, 0xE0, 0xE0, 0xF1, 0xF1, 0xF1, 0xF1],
    [0x1F, 0x1F, 0x1F, 0x1F, 0x0E, 0x0E, 0x0E, 0x0E],
];

// Each octet of the key without its parity bit, the lowest.
fn without_parity(key: [u8; 8]) -> [u8; 8]
    ensures { result ≡ without_parity key }
{
    key.map(|octet| octet / 2)
}

// Whether two keys differ in parity bits alone.
fn alike(a: [u8; 8], b: [u8; 8]) -> bool
    ensures { result ≡ same (without_parity a) (without_parity b) }
{
    without_parity(a) == without_parity(b)
}

// Whether a key is weak, whatever its parity bits.
pub fn weak(key: [u8; 8]) -> bool
    ensures { result ≡ weak key }
{
    WEAK_KEYS.iter().any(|weak| alike(key, *weak))
}
