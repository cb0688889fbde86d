// The mark of the request, with its TAB and its length. `specs/Marks.antt` has the same names.
ghost use Rattle.std.specs.Prelude.{◌≡◌};
ghost use Rattle.tool_memory.specs.Marks.{phase_of, mark_of, tab_of, sent_length_of};

use numbers::Octets;
use receiver_memory::narrowed;
use tool::Phase;
use wake::Last;

// No request runs, and the last was a REC, TRB or IB, or there was none yet.
const IDLE_MARK: u8 = 0;
// The reply to ENQ, TRF, REC or AUT is awaited.
const READING_MARK: u8 = 1;

const TRANSFERRING_MARK: u8 = 2;

const PROGRAMMING_MARK: u8 = 3;

const AUTHENTICATING_MARK: u8 = 4;
// No request runs, and the last was an ENQ or TRF.
const CALLED_MARK: u8 = 5;
// The marks up to this one are in use.
pub(crate) const LAST_MARK: u8 = CALLED_MARK;

// A phase that every call refuses with 12.
pub(crate) const UNUSED: Phase = Phase::Programming {
    tab: 0,
    length: Octets(255),
};

#[tactic(auto, unfolding(crate::specs::Marks::phase_of))]
pub(crate) fn phase_of(mark: u8, tab: u8, length: u8) -> Phase
    ensures { result ≡ phase_of mark tab length }
{
    match mark {
        IDLE_MARK => Phase::Idle { last: Last::Other },
        READING_MARK => Phase::Reading { tab },
        TRANSFERRING_MARK => Phase::Transferring,
        PROGRAMMING_MARK => Phase::Programming {
            tab,
            length: Octets(usize::from(length)),
        },
        AUTHENTICATING_MARK => Phase::Authenticating,
        CALLED_MARK => Phase::Idle { last: Last::EnqTrf },
        _ => UNUSED,
    }
}

pub(crate) fn mark_of(phase: Phase) -> u8
    ensures { result ≡ mark_of phase }
{
    match phase {
        Phase::Idle { last: Last::EnqTrf } => CALLED_MARK,
        Phase::Idle { last: Last::Other } => IDLE_MARK,
        Phase::Reading { .. } => READING_MARK,
        Phase::Transferring => TRANSFERRING_MARK,
        Phase::Programming { .. } => PROGRAMMING_MARK,
        Phase::Authenticating => AUTHENTICATING_MARK,
    }
}

// The TAB of a phase, or what stood there.
pub(crate) fn tab_of(phase: Phase, was: u8) -> u8
    ensures { result ≡ tab_of phase was }
{
    match phase {
        Phase::Reading { tab } | Phase::Programming { tab, .. } => tab,
        _ => was,
    }
}

// The length of a phase, or what stood there.
pub(crate) fn sent_length_of(phase: Phase, was: u8) -> u8
    ensures { result ≡ sent_length_of phase was }
{
    match phase {
        Phase::Programming { length, .. } => narrowed(length.0),
        _ => was,
    }
}
