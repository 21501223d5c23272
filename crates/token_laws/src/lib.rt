// Nothing to run: proofs/ has the theorems about the tokens of a macroblock.
#![tactic(auto)]
