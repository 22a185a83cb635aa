// No code: two controllers that differ in the targets of the child domain, as those of a board with a move
// and of one without it do.
#![tactic(auto)]
