// The memory that holds a card.
ghost use Rattle.std.specs.Prelude.{◌≡◌};
ghost use Rattle.octets.specs.Splice.{spliced};
ghost use Rattle.receiver_memory.specs.Puts.{put_all};
ghost use Rattle.card_memory.specs.Layout.{wait_mark_at, records_at};
ghost use Rattle.card_memory.specs.Encoding.{phase_image, contents_image, contents_puts, wait_puts, encoded};

use crate::layout::{
    LENGTH_AT, NA2_AT, RECEIVER_AT, RECORD_PLACES, RECORD_SIZE, RECORDS_AT, STORAGE_SIZE,
    WAIT_DATA_AT, WAIT_MARK_AT,
};
use card::{Card, Exchange, Phase};
use receiver_memory::narrowed;
use records::Record;

// The mark of the wait and, while an exchange waits, its ADP, TAB and length.
fn put_phase(memory: &mut [u8], phase: Phase)
    ensures { memory.new ≡ spliced memory.old wait_mark_at (phase_image phase) }
{
    match phase {
        Phase::Idle => octets::put(memory, WAIT_MARK_AT, &[0]),
        Phase::Waiting { adp, tab, length } => {
            octets::put(memory, WAIT_MARK_AT, &[1, adp, tab, narrowed(length.0)]);
        }
    }
}

#[tactic(auto, unfolding(receiver_memory::specs::Puts::put_all))]
fn put_exchange(memory: &mut [u8], exchange: &Exchange)
    ensures { memory.new ≡ put_all (wait_puts exchange.now) memory.old }
{
    put_phase(memory, exchange.phase);
    octets::put(memory, WAIT_DATA_AT, &exchange.content);
    octets::put(memory, NA2_AT, &exchange.na2);
}

// The length and the storage of a record, from the offset of its length on.
fn put_contents(memory: &mut [u8], at: usize, stored: &Record)
    ensures { memory.new ≡ spliced memory.old at (contents_image stored.now) }
{
    let mut image = [0; 1 + STORAGE_SIZE];
    image[0] = narrowed(stored.length.0);
    octets::put(&mut image, 1, &stored.storage);
    octets::put(memory, at, &image);
}

fn put_all_contents(memory: &mut [u8], each: &[Record; RECORD_PLACES])
    ensures { memory.new ≡ put_all (contents_puts records_at each.now) memory.old }
{
    let mut at = RECORDS_AT;
    for stored in each {
        put_contents(memory, at + LENGTH_AT, stored);
        at += RECORD_SIZE;
    }
}

// What no call alters stays as it stands in the memory: address, key, count, and what setup gave each record besides its contents.
#[tactic(auto, using(crate::proofs::Turns::encoded_in_turn))]
pub fn encode(memory: &mut [u8], card: &Card)
    ensures { memory.new ≡ encoded card.now memory.old }
{
    put_exchange(memory, &card.exchange);
    put_all_contents(memory, &card.records.each);
    receiver_memory::encode(memory, RECEIVER_AT, card.receiver);
}
