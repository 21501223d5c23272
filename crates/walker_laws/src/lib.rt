// Nothing to run: specs/ has the rule of luma mode B, and proofs/ the theorems about what the two walkers return.
#![tactic(auto)]
