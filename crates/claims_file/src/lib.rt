// No code: the claims on one message file, numbered, written out and proved from the crates below.
#![tactic(auto)]
