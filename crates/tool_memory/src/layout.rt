// Where each field of tool memory stands (docs/TOOL_MEMORY.md). `specs/Layout.antt` has the same names.
use frame::sizes::{ADDRESS_WIDTH, MOST_TRANSFERRED, NUMBER_WIDTH};

// The request: its mark, its TAB, the length of its DATA, its station and its ADP.
pub(crate) const MARK_AT: usize = 0;

pub(crate) const TAB_AT: usize = MARK_AT + 1;

pub(crate) const LENGTH_AT: usize = TAB_AT + 1;

pub(crate) const ADS_AT: usize = LENGTH_AT + 1;

pub(crate) const ADP_AT: usize = ADS_AT + ADDRESS_WIDTH;
// What a programming request keeps: its key, NA1 and DATA.
pub(crate) const KEY_AT: usize = ADP_AT + 1;

pub(crate) const NA1_AT: usize = KEY_AT + NUMBER_WIDTH;

pub(crate) const SENT_AT: usize = NA1_AT + NUMBER_WIDTH;
// What the wake-up rule remembers: the station of the last ENQ or TRF, and how many have succeeded.
pub(crate) const STATION_AT: usize = SENT_AT + MOST_TRANSFERRED;

pub(crate) const SUCCESSES_AT: usize = STATION_AT + ADDRESS_WIDTH;
// The receiver, and the whole memory.
pub(crate) const RECEIVER_AT: usize = SUCCESSES_AT + 1;

pub const SIZE: usize = RECEIVER_AT + receiver_memory::SIZE;
