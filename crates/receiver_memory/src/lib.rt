#![tactic(auto)]
// A receiver in lent memory: its mark, its count and the octets of a partly received frame (docs/MEMORY.md).
ghost use Rattle.std.specs.Prelude.{◌≡◌};
ghost use Rattle.octets.specs.Splice.{spliced};
ghost use Rattle.receiver_memory.specs.Fields.{mark_of, narrowed};
ghost use Rattle.receiver_memory.specs.Receiver.{decoded, image};

use numbers::Octets;
use receiver::{MOST_HELD, Receiver};

// The places of a receiver in memory, from its start on. `specs/Receiver.antt` has the same names.
pub const MARK_AT: usize = 0;

const COUNT_AT: usize = MARK_AT + 1;

const OCTETS_AT: usize = COUNT_AT + 1;

pub const SIZE: usize = OCTETS_AT + MOST_HELD;

// A state mark: 1 where it is set.
pub fn mark_of(set: bool) -> u8
    ensures { result ≡ mark_of set }
{
    u8::from(set)
}

// A number as an octet: 255, which is over every limit, where it is larger.
pub fn narrowed(number: usize) -> u8
    ensures { result ≡ narrowed number }
{
    u8::try_from(number).unwrap_or(u8::MAX)
}

// The receiver that the octets of one hold.
#[tactic(auto, unfolding(crate::specs::Receiver::decoded, crate::specs::Fields::field_at))]
pub fn decode(part: &[u8]) -> Receiver
    ensures { result ≡ decoded part.now }
{
    Receiver {
        skipping: octets::octet(part, MARK_AT) == 1,
        count: Octets(usize::from(octets::octet(part, COUNT_AT))),
        octets: octets::padded(octets::part(part, OCTETS_AT, SIZE)),
    }
}

// A receiver over the octets of a memory from an offset on; the memory stays as it is where a receiver does not fit there.
pub fn encode(memory: &mut [u8], at: usize, receiver: Receiver)
    ensures { memory.new ≡ spliced memory.old at (image receiver) }
{
    let mut image = [0; SIZE];
    image[MARK_AT] = mark_of(receiver.skipping);
    image[COUNT_AT] = narrowed(receiver.count.0);
    octets::put(&mut image, OCTETS_AT, &receiver.octets);
    octets::put(memory, at, &image);
}
