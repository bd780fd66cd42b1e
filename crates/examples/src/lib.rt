// No code: document 01's marked examples. specs/ has the list, proofs/ the one statement over it.
#![tactic(auto)]
