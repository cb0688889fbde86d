#![tactic(auto)]
// A label's text: whether it is well-formed UTF-8 (RFC 3629), how many characters it has, and its longest
// front part of whole characters within an octet limit and a character limit (01, Labels; 02, E1).
ghost use Rattle.std.specs.Prelude.{◌≡◌};
ghost use Rattle.label.specs.Fitting.{answer_of_text, answer_of_fitting, measured, fit_of, kept_part, front_of};

mod character;
mod utf8;

use character::starts_character;
use numbers::{Characters, Octets};
use utf8::sequence_at;

// The text is ill-formed past this offset.
#[derive(Clone, Copy, Debug, PartialEq, Eq)]
pub struct IllFormed(pub Octets);

// A kept part's own two counts.
#[derive(Clone, Copy, Debug, PartialEq, Eq)]
pub struct Counts {
    pub octets: Octets,
    pub characters: Characters,
}

// The kept part of the caller's own label, beside what fitting finds.
#[derive(Clone, Copy)]
pub struct FittedLabel<'a> {
    pub kept: &'a [u8],
    pub fitting: Result<Counts, IllFormed>,
}

// How many characters a text has; if it is ill-formed, where its longest well-formed front part ends.
// No range: the offset moves by a sequence's own length. std's chars would read the text twice, by another definition than RFC 3629's table.
pub fn measure(text: &[u8]) -> Result<Characters, IllFormed>
    ensures { answer_of_text result ≡ measured text.now }
{
    let mut at = 0;
    let mut characters: usize = 0;
    while at < text.len() {
        let Some(length) = sequence_at(text, at) else {
            return Err(IllFormed(Octets(at)));
        };
        if starts_character(text, at, length) {
            characters += 1;
        }
        at += length;
    }
    Ok(Characters(characters))
}

// The counts of the longest front part of whole characters within both limits. The label is read to its end,
// since ill-formed text past the kept part is refused too.
pub fn fit(label: &[u8], octets: Octets, characters: Characters) -> Result<Counts, IllFormed>
    ensures { answer_of_fitting result ≡ fit_of label.now octets characters }
{
    let mut at = 0;
    let mut begun = 0;
    let mut kept = Counts {
        octets: Octets(0),
        characters: Characters(0),
    };
    while at < label.len() {
        let Some(length) = sequence_at(label, at) else {
            return Err(IllFormed(Octets(at)));
        };
        if starts_character(label, at, length) {
            // Those begun before are whole now: no combining mark follows them.
            if at <= octets.0 && begun <= characters.0 {
                kept = Counts {
                    octets: Octets(at),
                    characters: Characters(begun),
                };
            }
            begun += 1;
        }
        at += length;
    }
    if at <= octets.0 && begun <= characters.0 {
        Ok(Counts {
            octets: Octets(at),
            characters: Characters(begun),
        })
    } else {
        Ok(kept)
    }
}

// The front part of a label that a fitting keeps: the empty part if the label is ill-formed.
fn front(label: &[u8], fitting: Result<Counts, IllFormed>) -> &[u8]
    ensures { (result.ref_ptr ≡ label.entry.ref_ptr) × (result.now ≡ front_of label.now fitting) }
{
    let end = match fitting {
        Ok(counts) => counts.octets.0,
        Err(_) => 0,
    };
    &label[..end.min(label.len())]
}

// The kept part itself. It starts where the label does: it is no copy.
#[tactic(auto, using(crate::proofs::Laws::front_kept))]
pub fn kept(label: &[u8], octets: Octets, characters: Characters) -> &[u8]
    ensures { (result.ref_ptr ≡ label.entry.ref_ptr) × (result.now ≡ kept_part label.now octets characters) }
{
    front(label, fit(label, octets, characters))
}

// The kept part with its two counts, in one call.
#[tactic(auto, using(crate::proofs::Laws::front_kept))]
pub fn fitted<'a>(label: &'a [u8], octets: Octets, characters: Characters) -> FittedLabel<'a>
    ensures { (result.kept.ref_ptr ≡ label.entry.ref_ptr) × (result.kept.now ≡ kept_part label.now octets characters) × (answer_of_fitting result.fitting ≡ fit_of label.now octets characters) }
{
    let fitting = fit(label, octets, characters);
    FittedLabel {
        kept: front(label, fitting),
        fitting,
    }
}
