#![tactic(auto)]
// The swap file's reader as it was before load curves (02, E10): what it gave, the reader gives still. It has no code.
