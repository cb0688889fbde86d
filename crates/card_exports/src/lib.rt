#![tactic(auto)]
// The card for C programs, over lent card memory. include/propolisk_card.h declares the calls.
ghost use Rattle.std.specs.Prelude.{◌≡◌};
ghost use Rattle.card.specs.Numbers.{answer_number};
ghost use Rattle.card_exports.specs.Outcome.{finished, lent_card};

mod observing;
mod setup;
mod stepping;

use card::{Answered, Card, Refusal, answer_number};
use card_memory::layout;
use numbers::table::BROKEN_RULE;
pub use observing::propolisk_card_read;
pub use setup::propolisk_card_setup;
pub use stepping::{
    propolisk_card_meter_write, propolisk_card_step_gap, propolisk_card_step_octet,
    propolisk_card_step_session_end,
};

// The card that a memory holds. The memory is tested before use: 17, then 12.
pub(crate) fn lent_card(memory: &[u8]) -> Result<Card, Refusal>
    ensures { result ≡ lent_card memory.now }
{
    if memory.len() < layout::SIZE {
        return Err(Refusal::WrongLength);
    }
    if !card_memory::legible(memory) {
        return Err(Refusal::BrokenRule);
    }
    Ok(card_memory::decode(memory))
}

// The number of an answer, with the next card in the memory; a card refused with 12 leaves the memory as it is.
#[tactic(auto, unfolding(crate::specs::Outcome::finished))]
pub(crate) fn finish(memory: &mut [u8], answered: &Answered) -> u8
    ensures { record { number = result; memory = memory.new } ≡ finished memory.old (answer_number answered.now.answer) answered.now.card }
{
    let number = answer_number(answered.answer);
    if number == BROKEN_RULE {
        return BROKEN_RULE;
    }
    card_memory::encode(memory, &answered.card);
    number
}
