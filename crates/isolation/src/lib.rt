// No code: the theorems about any set of instructions. specs/ has what is claimed, proofs/ why it holds.
#![tactic(auto)]
