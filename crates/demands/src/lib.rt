// What is promised, and which replacements that excludes. This crate holds statements and their proofs, and no code.
#![tactic(auto)]
