// No code: what happens to one source keeps its state rules, for the crates above.
#![tactic(auto)]
