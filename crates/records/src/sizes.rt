// How much a card holds. `specs/Sizes.antt` has the same names.

// The most records of a card (01, The card: "up to 32 records").
pub const MOST_RECORDS: usize = 32;
// The most that an octet limit allows, and so the octets of a record's storage (01, The card: "an octet limit 0 to 116").
pub const MOST_OCTETS: usize = 116;
// The most that a label's character limit allows (01, The card: "a character limit 0 to 116").
pub const MOST_CHARACTERS: usize = 116;
