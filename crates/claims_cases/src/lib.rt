// No code: the claims on the table cases, numbered, written out and proved from the crates below.
#![tactic(auto)]
