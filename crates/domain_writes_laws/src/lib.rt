// No code: what a write to a register does to each source of its domain, for the crates above.
#![tactic(auto)]
