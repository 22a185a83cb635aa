// No code: what holds of the wired controller's calls.
#![tactic(auto)]
