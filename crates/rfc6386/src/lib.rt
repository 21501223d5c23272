// Nothing to run: specs/ has what RFC 6386 says of a key frame's picture, a file for each section, and proofs/ the laws
// about it.
#![tactic(auto)]
