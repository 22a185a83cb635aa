// No code: what a domain is after one of its parts was replaced, for the crates above.
#![tactic(auto)]
