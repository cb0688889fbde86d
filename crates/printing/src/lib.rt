#![tactic(auto)]
// What programs read on standard input, and what they print on standard output: words, numbers, octets, frames, records and swap files, and the numbers handed back in
// words. A statement cannot speak of what is printed, so the functions that print promise no more than to be safe and to end; the error that one gives is that of a write
// that failed.
mod files;
mod input;
mod line;
mod refusals;

pub use files::{print_file, print_record};
pub use input::read_full;
pub use line::{print, print_frame, print_number, print_octets};
pub use refusals::{print_card, print_tool};
