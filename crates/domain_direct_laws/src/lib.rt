// No code: what holds of direct delivery, for the crates above.
#![tactic(auto)]
