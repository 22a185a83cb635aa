// No code: the claims on the wired controller's registers and state rules, written out in full and proved.
#![tactic(auto)]
