// No code: that every operation of the wired controller keeps its state rules, for the crates above.
#![tactic(auto)]
