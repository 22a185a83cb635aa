// No code: that the board and its block settle each other, and that the start keeps the state rules.
#![tactic(auto)]
