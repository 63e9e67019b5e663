// C's grammar of a plural rule and the reading of its texts: definitions (specs/) and theorems (proofs/) only.

#![tactic(auto)]
