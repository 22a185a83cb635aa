// No code: the claims on the functions of the calls, numbered, written out and proved from the crates below.
#![tactic(auto)]
