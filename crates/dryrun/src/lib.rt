// The dry run of an accepted job: its definitions, and what is proved of every run. This crate holds no code.
#![tactic(auto)]
