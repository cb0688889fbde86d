#![tactic(auto)]
// What answers are made of: counts of octets and counts of characters, which are two types, and the numbers of documents 01 and 02.
pub mod table;

// A count of octets, a limit on it, or an offset.
#[derive(Clone, Copy, Debug, PartialEq, Eq, PartialOrd, Ord)]
pub struct Octets(pub usize);

// A count of characters, or a limit on it.
#[derive(Clone, Copy, Debug, PartialEq, Eq, PartialOrd, Ord)]
pub struct Characters(pub usize);
