// Where characters start: a character is a well-formed sequence with the combining marks after it (02, E1).
ghost use Rattle.std.specs.Prelude.{◌≡◌, ◌<◌, drop};
ghost use Rattle.label.specs.Utf8.{sequence_length};
ghost use Rattle.label.specs.Character.{starts_character};

// Each of U+0300 to U+036F is a sequence of two octets.
const MARK_OCTETS: usize = 2;

// Whether a character starts with the sequence of so many octets at an offset of the text. The combining marks are CC 80 to CC BF and CD 80 to CD AF.
pub(crate) fn starts_character(text: &[u8], at: usize, octets: usize) -> bool
    requires { (octets ≡ sequence_length (drop at text.now)) × (0 < octets) }
    ensures { result ≡ starts_character text.now at }
{
    if octets != MARK_OCTETS || at == 0 {
        return true;
    }
    match text[at] {
        0xCC => false,
        0xCD => 0xAF < text[at + 1],
        _ => true,
    }
}
