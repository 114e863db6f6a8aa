// Scripts of commands: what each line asks for, and what is answered to it. This crate holds no code.
#![tactic(auto)]
