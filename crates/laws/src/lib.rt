// The promises as theorems over the definitions alone: specs/ and proofs/ hold them, and there is no code.
#![tactic(auto)]
