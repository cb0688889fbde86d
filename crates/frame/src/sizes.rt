// Lengths, widths and offsets of a frame, in octets. `specs/Sizes.antt` has the same names.

// The whole length that an N can state.
pub const SHORTEST_FRAME: usize = 11;

pub const LONGEST_FRAME: usize = 128;
// Where ADS, ADP, COM and the command's fields stand.
pub const ADS_AT: usize = 1;

pub const ADP_AT: usize = 7;

pub const COM_AT: usize = 8;

pub const FIELDS_AT: usize = 9;
// The CRC at a frame's end.
pub const CRC_WIDTH: usize = 2;
// ADS, and RSO's second ADS.
pub const ADDRESS_WIDTH: usize = 6;
// ZA1 and ZA2.
pub const NUMBER_WIDTH: usize = 8;

pub const TAB_WIDTH: usize = 1;
// The most DATA of REC and ECH.
pub const MOST_PROGRAMMED: usize = 100;
// The most DATA of TRF, TRB and DAT.
pub const MOST_TRANSFERRED: usize = 116;
// The most TABi of an ASO, which are its DATA.
pub const MOST_TABS: usize = 40;
