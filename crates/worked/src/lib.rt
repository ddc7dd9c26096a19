// The worked plots of document 01 (W1 to W12) and its worked sheet, evaluated against the definitions. No code: specs/ has the plots and
// what is expected of them, proofs/ the theorems.
#![tactic(auto)]
