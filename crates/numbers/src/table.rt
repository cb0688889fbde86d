// The numbers handed back: document 01's table, and the numbers that document 02's requests add. `specs/Table.antt` has the same names.

// No number is given.
pub const NONE: u8 = 0;
// N states a whole length under 11 or over 128.
pub const LENGTH_OUT_OF_RANGE: u8 = 1;

pub const WRONG_CHECK_KEY: u8 = 2;
// A gap inside a frame, or a slice that is not as long as its N says.
pub const CUT_FRAME: u8 = 3;

pub const UNKNOWN_COMMAND: u8 = 4;
// A length that the command cannot have.
pub const IMPOSSIBLE_LENGTH: u8 = 5;
// An address of the wrong sort.
pub const WRONG_ADDRESS: u8 = 6;
// More octets of data than may be.
pub const TOO_LONG: u8 = 7;
// Text that is not well-formed UTF-8.
pub const ILL_FORMED: u8 = 8;

pub const TOO_MANY_CHARACTERS: u8 = 9;

pub const NO_RECORD: u8 = 10;
// A record that is not open to the command.
pub const NOT_OPEN: u8 = 11;
// A setup rule is broken.
pub const BROKEN_RULE: u8 = 12;

pub const WRONG_CIPHER: u8 = 13;

pub const WRONG_ECHO: u8 = 14;

pub const SESSION_ENDED: u8 = 15;
// The tool has a request that runs.
pub const BUSY: u8 = 16;
// What is lent is too short, or not of its one length.
pub const WRONG_LENGTH: u8 = 17;
// A faulty swap file.
pub const FAULTY_FILE: u8 = 18;

pub const UNEXPECTED_FRAME: u8 = 19;

pub const REJECTED: u8 = 20;
// A key that is one of DES's weak keys.
pub const WEAK_KEY: u8 = 21;
