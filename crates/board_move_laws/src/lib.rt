// No code: what an access of a move gives, from what its code leaves.
#![tactic(auto)]
