// No code: the claims on the calls of the board, numbered, written out and proved from the crates below.
#![tactic(auto)]
