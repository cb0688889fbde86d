// Setup over lent card memory.
ghost use Rattle.std.specs.Prelude.{◌≡◌};
ghost use Rattle.card.specs.Numbers.{answer_number};
ghost use Rattle.card_exports.specs.Setup.{number_with_kinds, setup_outcome};

use card::{Card, Refusal, answer_number};
use card_memory::layout;
use numbers::table::{BROKEN_RULE, NONE, WRONG_ADDRESS, WRONG_LENGTH};

// The number of a setup whose entries may have kinds that are none: those are 12, after 17 and 6 and before the key and contents.
fn judge(answer: Result<(), Refusal>, known: bool) -> u8
    ensures { result ≡ number_with_kinds (answer_number answer) known }
{
    let number = answer_number(answer);
    if number == WRONG_LENGTH || number == WRONG_ADDRESS {
        return number;
    }
    if known { number } else { BROKEN_RULE }
}

// A refused setup leaves the memory; what the memory held before is not looked at.
pub fn propolisk_card_setup(
    memory: &mut [u8],
    address: &[u8],
    key: &[u8],
    count: u8,
    entries: &[u8; layout::RECORDS_SIZE],
) -> u8
    ensures { record { number = result; memory = memory.new } ≡ setup_outcome memory.old address.now key.now count entries.now }
{
    if memory.len() < layout::SIZE {
        return WRONG_LENGTH;
    }
    let records = card_memory::entries(count, entries);
    let start = Card::setup(address, key, records);
    let number = judge(start.answer, card_memory::entry_kinds_known(count, entries));
    if number == NONE {
        card_memory::set_up(memory, address, key, count, entries);
    }
    number
}
