// Calls in octets. Each is a kind, an octet or TAB, the length of the reply buffer, the length of a text, and the text: the number
// lent, or data.
ghost use Rattle.std.specs.Prelude.{◌≡◌, drop};
ghost use Rattle.history.specs.Encoding.{call_kind, head_at, text_at, call_of, call_meant, call_at, size_at};

use numbers::Octets;

// The octets of a call before its text.
const HEAD_WIDTH: usize = 4;
// The longest reply buffer that a call can state, since the length is one octet.
pub const LONGEST_LENT: usize = 255;

#[derive(Clone, Copy, Debug, PartialEq, Eq)]
pub enum CallKind {
    Octet,
    MeterWrite,
    SessionEnd,
    Gap,
}

// Every octet is a kind.
impl From<u8> for CallKind {
    ghost from_gives = { λ octet kind. kind ≡ call_kind octet };

    #[tactic(auto, unfolding(crate::specs::Encoding::call_kind))]
    fn from(octet: u8) -> CallKind {
        match octet {
            0 => CallKind::Octet,
            1 => CallKind::MeterWrite,
            2 => CallKind::SessionEnd,
            _ => CallKind::Gap,
        }
    }
}

// The call that octets begin with, but for its text, and how many of the octets it takes.
#[derive(Clone, Copy)]
pub struct Head {
    pub kind: CallKind,
    pub argument: u8,
    pub reply: u8,
    pub size: Octets,
}

// A call that the octets' end cuts is a gap.
#[tactic(auto, unfolding(crate::specs::Encoding::head_at))]
pub fn head_at(history: &[u8]) -> Head
    ensures { result ≡ head_at history.now }
{
    let end = HEAD_WIDTH + usize::from(octets::octet(history, 3));
    if history.len() < end {
        return Head {
            kind: CallKind::Gap,
            argument: 0,
            reply: 0,
            size: Octets(history.len()),
        };
    }
    Head {
        kind: CallKind::from(octets::octet(history, 0)),
        argument: octets::octet(history, 1),
        reply: octets::octet(history, 2),
        size: Octets(end),
    }
}

// The text of the call that octets begin with: none of one that is cut.
#[tactic(auto, unfolding(crate::specs::Encoding::text_at))]
pub fn text_at(history: &[u8]) -> &[u8]
    ensures { result.now ≡ text_at history.now }
{
    let length = usize::from(octets::octet(history, 3));
    octets::part(history, HEAD_WIDTH, HEAD_WIDTH + length)
}

// A call with its arguments.
#[derive(Clone, Copy)]
pub enum Call<'a> {
    Octet { octet: u8, na2: &'a [u8], reply: u8 },
    MeterWrite { tab: u8, data: &'a [u8] },
    SessionEnd,
    Gap,
}

// What a call does not use may be anything.
#[tactic(auto, unfolding(crate::specs::Encoding::call_of))]
fn call_of(head: Head, text: &[u8]) -> Call<'_>
    ensures { call_meant result ≡ call_of head.kind head.argument head.reply text.now }
{
    match head.kind {
        CallKind::Octet => Call::Octet {
            octet: head.argument,
            na2: text,
            reply: head.reply,
        },
        CallKind::MeterWrite => Call::MeterWrite {
            tab: head.argument,
            data: text,
        },
        CallKind::SessionEnd => Call::SessionEnd,
        CallKind::Gap => Call::Gap,
    }
}

// The call that octets begin with, and the octets behind it. One that the octets' end cuts is a gap, and takes all of them.
#[tactic(auto, using(crate::proofs::Decoding::head_within), unfolding(crate::specs::Encoding::call_at))]
pub fn split_call(history: &[u8]) -> (Call<'_>, &[u8])
    ensures call { call_meant result.0 ≡ call_at history.now }
    ensures rest { result.1.now ≡ drop (size_at history.now) history.now }
{
    let head = head_at(history);
    (call_of(head, text_at(history)), &history[head.size.0..])
}
