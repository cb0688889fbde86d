#![tactic(auto)]
// The swap file for C programs: the verdict, the records one by one, the writer and the list. include/propolisk_swap.h declares them.
pub mod list;
pub mod read;
pub mod write;
