// Which good frames a card takes (01, The card).
ghost use Rattle.std.specs.Prelude.{◌≡◌};
ghost use Rattle.card.specs.Taking.{taken_for};

use crate::sound::broadcast;
use frame::Command;
use frame::sizes::ADDRESS_WIDTH;

// What a card takes a good frame for.
#[derive(Clone, Copy, Debug, PartialEq, Eq)]
pub enum Taken {
    Enq,
    Rec,
    Aut,
    Trf,
    Trb,
    Ib,
}

// What a card with this address takes a good frame with this command and ADS for, if it takes it.
#[tactic(auto, using(crate::proofs::TakenFrames::not_taken), unfolding(crate::specs::Taking::taken_for))]
pub fn taken_for(
    own: [u8; ADDRESS_WIDTH],
    command: Command,
    ads: [u8; ADDRESS_WIDTH],
) -> Option<Taken>
    ensures { result ≡ taken_for own command ads }
{
    let to_own = ads == own;
    let to_all = broadcast(ads);
    match command {
        Command::Enq => to_own.then_some(Taken::Enq),
        Command::Rec => to_own.then_some(Taken::Rec),
        Command::Aut => to_own.then_some(Taken::Aut),
        Command::Trf => to_own.then_some(Taken::Trf),
        Command::Trb => to_all.then_some(Taken::Trb),
        Command::Ib => to_all.then_some(Taken::Ib),
        _ => None,
    }
}
