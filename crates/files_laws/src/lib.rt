// No code: what holds of the 20 message files and of the messages that reach them, for the crates above.
#![tactic(auto)]
