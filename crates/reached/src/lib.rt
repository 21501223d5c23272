// Nothing to run: proofs/ has examples, computed, in which a change moves all that it can reach.
#![tactic(auto)]
