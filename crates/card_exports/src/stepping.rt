// The card's events: an octet, a gap, a session end and a meter write. Each tests the memory before use: 17, then 12.
ghost use Rattle.std.specs.Prelude.{◌≡◌};
ghost use Rattle.card.specs.Events.{gap, session_end, meter_write};
ghost use Rattle.card_exports.specs.Outcome.{call_outcome, octet_outcome};

use crate::{finish, lent_card};
use card::Answered;
use frame::sizes;
use numbers::table::{BROKEN_RULE, WRONG_LENGTH};

// An octet from the bus, with a fresh NA2 and a reply buffer lent. The length is that of the reply, 0 where there is none; 17 and 12 leave it.
pub fn propolisk_card_step_octet(
    memory: &mut [u8],
    octet: u8,
    na2: &[u8],
    reply: &mut [u8],
    length: &mut usize,
) -> u8
    ensures { record { number = result; memory = memory.new; reply = reply.new; length = length.new } ≡ octet_outcome memory.old octet na2.now reply.old length.old }
{
    if na2.len() != sizes::NUMBER_WIDTH || reply.len() < sizes::LONGEST_FRAME {
        return WRONG_LENGTH;
    }
    let card = match lent_card(memory) {
        Ok(card) => card,
        Err(refusal) => return refusal.number(),
    };
    let stepped = card.octet(octet, na2, reply);
    let answered = Answered {
        card: stepped.card,
        answer: stepped.answer,
    };
    let number = finish(memory, &answered);
    if number == BROKEN_RULE {
        return BROKEN_RULE;
    }
    *length = stepped.reply.0;
    number
}

// The gap that ends a frame.
pub fn propolisk_card_step_gap(memory: &mut [u8]) -> u8
    ensures { record { number = result; memory = memory.new } ≡ call_outcome memory.old gap }
{
    match lent_card(memory) {
        Ok(card) => finish(memory, &card.gap()),
        Err(refusal) => refusal.number(),
    }
}

// The end of the session.
pub fn propolisk_card_step_session_end(memory: &mut [u8]) -> u8
    ensures { record { number = result; memory = memory.new } ≡ call_outcome memory.old session_end }
{
    match lent_card(memory) {
        Ok(card) => finish(memory, &card.session_end()),
        Err(refusal) => refusal.number(),
    }
}

// A write by the meter itself: 10, then 7, 8, 9.
pub fn propolisk_card_meter_write(memory: &mut [u8], tab: u8, data: &[u8]) -> u8
    ensures { record { number = result; memory = memory.new } ≡ call_outcome memory.old (meter_write tab «data».now) }
{
    match lent_card(memory) {
        Ok(card) => finish(memory, &card.meter_write(tab, data)),
        Err(refusal) => refusal.number(),
    }
}
