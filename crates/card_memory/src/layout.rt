// Where each field of card memory stands (docs/MEMORY.md). `specs/Layout.antt` has the same names.

use frame::sizes;
use records::sizes::{MOST_OCTETS, MOST_RECORDS};

// The identity: address, and key, which is as long as the numbers that it enciphers.
pub(crate) const ADDRESS_AT: usize = 0;

pub(crate) const ADDRESS_SIZE: usize = sizes::ADDRESS_WIDTH;

pub(crate) const KEY_AT: usize = ADDRESS_AT + ADDRESS_SIZE;

pub(crate) const KEY_SIZE: usize = sizes::NUMBER_WIDTH;

// The wait: its mark, ADP, TAB, length of DATA, DATA, NA2.
pub(crate) const WAIT_MARK_AT: usize = KEY_AT + KEY_SIZE;

pub(crate) const WAIT_ADP_AT: usize = WAIT_MARK_AT + 1;

pub(crate) const WAIT_TAB_AT: usize = WAIT_ADP_AT + 1;

pub(crate) const WAIT_LENGTH_AT: usize = WAIT_TAB_AT + 1;

pub(crate) const WAIT_DATA_AT: usize = WAIT_LENGTH_AT + 1;

pub(crate) const WAIT_DATA_SIZE: usize = sizes::MOST_PROGRAMMED;

pub(crate) const NA2_AT: usize = WAIT_DATA_AT + WAIT_DATA_SIZE;

pub(crate) const NA2_SIZE: usize = sizes::NUMBER_WIDTH;

// The records: their count, then a place for each.
pub(crate) const COUNT_AT: usize = NA2_AT + NA2_SIZE;

pub(crate) const RECORDS_AT: usize = COUNT_AT + 1;

// In a record, from its start on: TAB, kind, octet limit, character limit, marks, length, storage.
pub(crate) const TAB_AT: usize = 0;

pub(crate) const KIND_AT: usize = TAB_AT + 1;

pub(crate) const OCTET_LIMIT_AT: usize = KIND_AT + 1;

pub(crate) const CHARACTER_LIMIT_AT: usize = OCTET_LIMIT_AT + 1;

pub(crate) const MARKS_AT: usize = CHARACTER_LIMIT_AT + 1;

pub(crate) const LENGTH_AT: usize = MARKS_AT + 1;

pub(crate) const STORAGE_AT: usize = LENGTH_AT + 1;

pub const STORAGE_SIZE: usize = MOST_OCTETS;

pub(crate) const RECORD_SIZE: usize = STORAGE_AT + STORAGE_SIZE;

pub(crate) const RECORD_PLACES: usize = MOST_RECORDS;

// All records, and all entries of setup.
pub const RECORDS_SIZE: usize = RECORD_PLACES * RECORD_SIZE;

// The receiver, last, since a station that shares one has none of its own.
pub(crate) const RECEIVER_AT: usize = RECORDS_AT + RECORDS_SIZE;

pub(crate) const RECEIVER_MARK_AT: usize = RECEIVER_AT + receiver_memory::MARK_AT;

// The octets of a card memory.
pub const SIZE: usize = RECEIVER_AT + receiver_memory::SIZE;
