// The cards that no call refuses with 12.
ghost use Rattle.std.specs.Prelude.{◌≡◌};
ghost use Rattle.frame.specs.Addresses.{broadcast};
ghost use Rattle.card.specs.Soundness.{within_rec, sound};

use crate::{Card, Phase};
use des::keys::weak;
use frame::sizes::{ADDRESS_WIDTH, MOST_PROGRAMMED};

// Whether an address is the broadcast one.
#[tactic(auto, unfolding(frame::specs::Addresses::broadcast))]
pub(crate) fn broadcast(address: [u8; ADDRESS_WIDTH]) -> bool
    ensures { result ≡ broadcast address }
{
    address == [0; ADDRESS_WIDTH]
}

impl Phase {
    // Whether the exchange that waits has no more DATA than a REC can have.
    fn within_rec(self) -> bool
        ensures { result ≡ within_rec self }
    {
        match self {
            Phase::Idle => true,
            Phase::Waiting { length, .. } => length.0 <= MOST_PROGRAMMED,
        }
    }
}

impl Card {
    // Whether no call refuses this card with 12.
    pub fn sound(&self) -> bool
        ensures { result ≡ sound self.now }
    {
        !broadcast(self.identity.address)
            && !weak(self.identity.key)
            && self.exchange.phase.within_rec()
            && self.receiver.is_sound()
            && self.records.sound()
    }
}
