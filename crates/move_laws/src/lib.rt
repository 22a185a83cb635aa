// No code: a station moved in the middle of a shift ends with the file that it would have had with no move.
#![tactic(auto)]
