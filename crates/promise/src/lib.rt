// What it means that a promise fixes its result: a statement that every crate's proofs/Unique.antt makes of its public functions.

#![tactic(auto)]
