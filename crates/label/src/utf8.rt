// The well-formed sequences of RFC 3629 section 4.
ghost use Rattle.std.specs.Prelude.{◌≡◌, ◌<◌, length, get_or, drop, MatchOption};
ghost use Rattle.label.specs.Utf8.{tail, sequence_length};
ghost use Rattle.label.specs.Lead.{row_of};

// How many octets a sequence with this first octet has, if any starts with it.
fn sequence_length(lead: u8) -> Option<usize>
    ensures { MatchOption result (length (row_of lead) ≡ 0) (λ n. (n ≡ length (row_of lead)) × (0 < n)) }
{
    match lead {
        0x00..=0x7F => Some(1),
        0xC2..=0xDF => Some(2),
        0xE0..=0xEF => Some(3),
        0xF0..=0xF4 => Some(4),
        _ => None,
    }
}

// The least octet that may stand so many octets after this first one. The place is tested first, here and below: the other
// way round, and with both limits in one function, `sequence_at` was not inlined, and a label of ASCII took three times as long.
fn lowest(lead: u8, place: usize) -> u8
    requires { 0 < place }
    ensures { result ≡ (get_or (row_of lead) place tail).least }
{
    match (place, lead) {
        (1, 0xE0) => 0xA0,
        (1, 0xF0) => 0x90,
        _ => 0x80,
    }
}

// The greatest octet that may stand there.
fn highest(lead: u8, place: usize) -> u8
    requires { 0 < place }
    ensures { result ≡ (get_or (row_of lead) place tail).greatest }
{
    match (place, lead) {
        (1, 0xED) => 0x9F,
        (1, 0xF4) => 0x8F,
        _ => 0xBF,
    }
}

// How many octets the well-formed sequence at an offset of the text has, if one stands there.
pub(crate) fn sequence_at(text: &[u8], at: usize) -> Option<usize>
    requires { at < length text.now }
    ensures { MatchOption result (sequence_length (drop at text.now) ≡ 0) (λ n. (n ≡ sequence_length (drop at text.now)) × (0 < n)) }
{
    let lead = text[at];
    let length = sequence_length(lead)?;
    if text.len() - at < length {
        return None;
    }
    for place in 1..length {
        let octet = text[at + place];
        let least = lowest(lead, place);
        let greatest = highest(lead, place);
        if octet < least || greatest < octet {
            return None;
        }
    }
    Some(length)
}
