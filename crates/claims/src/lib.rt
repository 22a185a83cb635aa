// No code: the three demands and the requests, each a conjunction of the claims that answer it.
#![tactic(auto)]
