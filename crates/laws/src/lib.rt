// Theorems about the rules: what a scan, a step and a reading keep. There is no code here; proofs/ has them.

#![tactic(auto)]
