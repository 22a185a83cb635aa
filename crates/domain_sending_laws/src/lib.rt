// No code: what holds of the messages that a domain sends, for the crates above.
#![tactic(auto)]
