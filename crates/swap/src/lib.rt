#![tactic(auto)]
// The swap file: reading a whole file, and its records one by one (01, Swap file).
pub mod cursor;
pub mod file;
pub mod item;
pub mod kind;
pub mod station;

pub use cursor::{Cursor, NoRecord};
pub use file::{Fault, RecordCount, judge};
pub use item::Entry;
pub use kind::Kind;
pub use station::{next_for, next_to_program};
