// How much one connection more can do (document 02, R-14). No code: specs/ says it in the paper's words, proofs/ has the theorems.
#![tactic(auto)]
