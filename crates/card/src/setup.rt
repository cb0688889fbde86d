// Setup (01, The card).
ghost use Rattle.std.specs.Prelude.{◌≡◌};
ghost use Rattle.card.specs.Parts.{Tells};
ghost use Rattle.card.specs.Setup.{bare, fresh, settled, admitted, after_setup};

use crate::sound::broadcast;
use crate::{Answered, Card, Exchange, Identity, Phase, Refusal};
use des::keys::weak;
use frame::sizes::{ADDRESS_WIDTH, MOST_PROGRAMMED, NUMBER_WIDTH};
use receiver::Receiver;
use records::Records;

impl Card {
    // A card as setup leaves it: receiver empty, no wait, first contents.
    fn fresh(address: [u8; ADDRESS_WIDTH], key: [u8; NUMBER_WIDTH], records: Records) -> Card
        ensures { result ≡ fresh address key records }
    {
        Card {
            identity: Identity { address, key },
            records,
            exchange: Exchange {
                phase: Phase::Idle,
                content: [0; MOST_PROGRAMMED],
                na2: [0; NUMBER_WIDTH],
            },
            receiver: Receiver::new(),
        }
    }

    // The sound card without records that a refused setup hands back.
    fn bare() -> Card
        ensures { result ≡ bare }
    {
        let address = [0, 0, 0, 0, 0, 1];
        let key = [0x01, 0x23, 0x45, 0x67, 0x89, 0xAB, 0xCD, 0xEF];
        Card::fresh(address, key, Records::empty())
    }

    // Setup's checks after 17: the address (6), the rules of the records (12), the key (21), then each content in turn (7, 8, 9).
    fn admitted(
        address: [u8; ADDRESS_WIDTH],
        key: [u8; NUMBER_WIDTH],
        records: Records,
    ) -> Result<Card, Refusal>
        ensures { Tells (admitted address key records) (settled result) }
    {
        if broadcast(address) {
            return Err(Refusal::BroadcastAddress);
        }
        if !records.keeps_rules() {
            return Err(Refusal::BrokenRule);
        }
        if weak(key) {
            return Err(Refusal::WeakKey);
        }
        records.contents_answers()?;
        Ok(Card::fresh(address, key, records))
    }

    // All of setup's checks: the lengths come first (17).
    fn checked(address: &[u8], key: &[u8], records: Records) -> Result<Card, Refusal>
        ensures { Tells (after_setup address.now key.now records) (settled result) }
    {
        if address.len() != ADDRESS_WIDTH || key.len() != NUMBER_WIDTH {
            return Err(Refusal::WrongLength);
        }
        Card::admitted(octets::padded(address), octets::padded(key), records)
    }

    // A refused setup hands back a fixed sound card without records.
    pub fn setup(address: &[u8], key: &[u8], records: Records) -> Answered
        ensures { Tells (after_setup address.now key.now records) result }
    {
        match Card::checked(address, key, records) {
            Ok(card) => card.answered(Ok(())),
            Err(refusal) => Card::bare().answered(Err(refusal)),
        }
    }
}
