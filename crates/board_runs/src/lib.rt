// No code: calls made one after the other, each on what the last one left.
#![tactic(auto)]
