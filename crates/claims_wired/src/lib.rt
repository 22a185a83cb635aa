// No code: the claims on the wired controller's calls and on what they leave, written out in full and proved.
#![tactic(auto)]
