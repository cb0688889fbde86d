// The kinds of a record and what each asks of its data.
ghost use Rattle.std.specs.Prelude.{◌≡◌};
ghost use Rattle.label.specs.Utf8.{well_formed};
ghost use Rattle.swap.specs.Record.{kind_octet, known_kind, kind_of, length_limit, fits_kind};
ghost use Rattle.swap.specs.Kind.{kind_read};

use numbers::Octets;

// The most octets that the data of a raw record or a label has.
const CONTENT_LIMIT: usize = 116;
// The most octets that the data of a long record has.
const LONG_CONTENT_LIMIT: usize = 4096;

// What a record holds: octets of any sort, a label's text, or the octets of a load curve, of which there may be more.
#[derive(Clone, Copy, Debug, PartialEq, Eq)]
pub enum Kind {
    Raw,
    Label,
    Long,
}

// An octet that stands for no kind.
#[derive(Clone, Copy, Debug, PartialEq, Eq)]
pub struct UnknownKind;

impl TryFrom<u8> for Kind {
    type Error = UnknownKind;

    ghost try_from_gives = { λ octet r. r ≡ kind_read octet };

    #[tactic(auto, unfolding(crate::specs::Kind::kind_read, crate::specs::Record::known_kind, crate::specs::Record::kind_of))]
    fn try_from(octet: u8) -> Result<Kind, UnknownKind> {
        match octet {
            0 => Ok(Kind::Raw),
            1 => Ok(Kind::Label),
            2 => Ok(Kind::Long),
            _ => Err(UnknownKind),
        }
    }
}

impl From<Kind> for u8 {
    ghost from_gives = { λ kind octet. octet ≡ kind_octet kind };

    fn from(kind: Kind) -> u8 {
        match kind {
            Kind::Raw => 0,
            Kind::Label => 1,
            Kind::Long => 2,
        }
    }
}

// Whether an octet stands for a kind.
// It stands beside `try_from`, since docs/STATEMENTS.md names it.
#[tactic(auto, unfolding(crate::specs::Kind::kind_read))]
pub fn known(octet: u8) -> bool
    ensures { result ≡ known_kind octet }
{
    Kind::try_from(octet).is_ok()
}

// The kind that a known octet stands for; any other octet is taken for raw.
// It cannot fail, so it stands beside `try_from` (docs/STATEMENTS.md).
#[tactic(auto, unfolding(crate::specs::Kind::kind_read, crate::specs::Record::known_kind, crate::specs::Record::kind_of))]
pub fn kind_of(octet: u8) -> Kind
    ensures { result ≡ kind_of octet }
{
    Kind::try_from(octet).unwrap_or(Kind::Raw)
}

// The most octets that the data of a kind has.
#[tactic(auto, unfolding(crate::specs::Record::length_limit))]
pub fn length_limit(kind: Kind) -> Octets
    ensures { result.0 ≡ length_limit kind }
{
    match kind {
        Kind::Raw | Kind::Label => Octets(CONTENT_LIMIT),
        Kind::Long => Octets(LONG_CONTENT_LIMIT),
    }
}

// Whether data is well-formed, where its kind asks for that.
#[tactic(auto, unfolding(crate::specs::Record::fits_kind))]
pub fn fits_kind(kind: Kind, content: &[u8]) -> bool
    ensures { result ≡ fits_kind kind content.now }
{
    match kind {
        Kind::Label => is_well_formed(content),
        Kind::Raw | Kind::Long => true,
    }
}

fn is_well_formed(text: &[u8]) -> bool
    ensures { result ≡ well_formed text.now }
{
    label::measure(text).is_ok()
}
