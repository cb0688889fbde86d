// What a record holds, for the meter's display.
ghost use Rattle.std.specs.Prelude.{◌≡◌};
ghost use Rattle.card_exports.specs.Observing.{read_outcome};

use crate::lent_card;
use card_memory::layout;
use numbers::table::{BROKEN_RULE, NONE};

// 17 for the memory, 12, then 10; whether the record is readable over the bus is not asked. A refusal leaves the data; with 10 the length is 0.
pub fn propolisk_card_read(
    memory: &[u8],
    tab: u8,
    data: &mut [u8; layout::STORAGE_SIZE],
    length: &mut usize,
) -> u8
    ensures { record { number = result; shown = «data».new; length = length.new } ≡ read_outcome memory.now tab «data».old length.old }
{
    let card = match lent_card(memory) {
        Ok(card) => card,
        Err(refusal) => return refusal.number(),
    };
    if !card.sound() {
        return BROKEN_RULE;
    }
    match card.records.find(tab) {
        Err(refusal) => {
            *length = 0;
            refusal.number()
        }
        Ok(i) => {
            let held = card.records.each[i].contents();
            octets::put(data, 0, held);
            *length = held.len();
            NONE
        }
    }
}
