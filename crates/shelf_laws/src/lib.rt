// Nothing to run: proofs/ has the theorems about what a shelf is, and specs/ the words that they are said in.
#![tactic(auto)]
