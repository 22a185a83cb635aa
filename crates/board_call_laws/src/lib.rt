// No code: what a call gives, from what its code leaves.
#![tactic(auto)]
