// Nothing to run: proofs/ has the theorems about what the filter calls answer.
#![tactic(auto)]
