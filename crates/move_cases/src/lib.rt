// No code: a shift that meets the premises of a move, and for each premise one that shows that it is needed.
#![tactic(auto)]
