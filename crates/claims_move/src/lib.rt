// No code: the claims on the move of a station, numbered, written out and proved from the crates below.
#![tactic(auto)]
