// No code: what a record does, run line by line and by pieces.
#![tactic(auto)]
