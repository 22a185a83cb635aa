// No code: the claims on records of calls, numbered, written out and proved from the crates below.
#![tactic(auto)]
