#![tactic(auto)]
// A card in lent memory, at fixed offsets (docs/MEMORY.md).
pub mod layout;
mod legibility;
mod reading;
mod setup;
mod writing;

pub use legibility::legible;
pub use reading::decode;
pub use setup::{entries, entry_kinds_known, set_up};
pub use writing::encode;
