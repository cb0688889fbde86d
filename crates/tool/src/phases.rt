// The mark of the request.
ghost use Rattle.std.specs.Prelude.{◌≡◌};
ghost use Rattle.tool.specs.Parts.{idle, last_of};

use crate::Phase;
use wake::Last;

impl Phase {
    // Whether no request runs.
    pub(crate) fn idle(self) -> bool
        ensures { result ≡ idle self }
    {
        matches!(self, Phase::Idle { .. })
    }

    // The last request: the one that runs, or the one before.
    pub(crate) fn last(self) -> Last
        ensures { result ≡ last_of self }
    {
        match self {
            Phase::Idle { last } => last,
            Phase::Reading { .. } | Phase::Transferring => Last::EnqTrf,
            Phase::Programming { .. } | Phase::Authenticating => Last::Other,
        }
    }
}
