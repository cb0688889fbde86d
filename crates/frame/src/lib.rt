#![tactic(auto)]
// The frames of IEC 62056-3-1 without DLMS: commands, layouts, the checks of a whole frame, its fields, and the builder.
pub mod builder;
pub mod checks;
pub mod codes;
pub mod content;
pub mod layout;
pub mod sizes;

pub use builder::{Refusal, build};
pub use checks::{Fault, inspect, judge};
pub use codes::{Command, UnknownCommand};
pub use content::{Fields, Reading, data_of, fields_of, read};
