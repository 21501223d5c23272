// Nothing to run: proofs/ has the theorems about what may move in a still, and specs/ the words that they are said in.
#![tactic(auto)]
