// No code: the claims on one source and on one domain, written out in full and proved from the crates below.
#![tactic(auto)]
