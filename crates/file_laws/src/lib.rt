// No code: what holds of one message file, for the crates above.
#![tactic(auto)]
