// A card without a wait, and a card beside what the host is told.
ghost use Rattle.std.specs.Prelude.{◌≡◌};
ghost use Rattle.card.specs.Parts.{without_wait, answered, unreplied};

use crate::{Answered, Card, Exchange, Phase, Refusal, Stepped};
use numbers::Octets;

impl Card {
    // No exchange waits. The octets beside the phase stay, and are free.
    pub(crate) fn idle(self) -> Card
        ensures { result ≡ without_wait self }
    {
        let exchange = Exchange {
            phase: Phase::Idle,
            ..self.exchange
        };
        Card { exchange, ..self }
    }

    // This card beside the answer.
    pub(crate) fn answered(self, answer: Result<(), Refusal>) -> Answered
        ensures { result ≡ answered self answer }
    {
        Answered { card: self, answer }
    }

    // This card beside the answer, without a reply.
    pub(crate) fn unreplied(self, answer: Result<(), Refusal>) -> Stepped
        ensures { result ≡ unreplied self answer }
    {
        Stepped {
            card: self,
            answer,
            reply: Octets(0),
        }
    }
}
