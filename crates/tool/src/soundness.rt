// The tools that no call refuses with 12.
ghost use Rattle.std.specs.Prelude.{◌≡◌};
ghost use Rattle.tool.specs.Soundness.{within_rec, sound};

use crate::{Phase, Tool};
use frame::sizes::MOST_PROGRAMMED;

impl Phase {
    // Whether a programming request has sent no more DATA than a REC can have.
    fn within_rec(self) -> bool
        ensures { result ≡ within_rec self }
    {
        match self {
            Phase::Programming { length, .. } => length.0 <= MOST_PROGRAMMED,
            _ => true,
        }
    }
}

impl Tool {
    #[tactic(auto, unfolding(crate::specs::Soundness::sound))]
    pub(crate) fn sound(self) -> bool
        ensures { result ≡ sound self }
    {
        self.phase.within_rec() && self.receiver.is_sound()
    }
}
