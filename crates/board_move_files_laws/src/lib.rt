// No code: what the accesses of a move and the messages between them do to the old and the new file.
#![tactic(auto)]
