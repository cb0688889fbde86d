#![tactic(auto)]
// What a test that antt computes proves: of a table, at every entry; of two maps that keep exclusive or, at every word. It has no code.
