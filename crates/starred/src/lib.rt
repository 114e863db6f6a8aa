// The starred programs of document 01 with what `place` prints of them. This crate holds one list and its theorem, and no code.
#![tactic(auto)]
