// Soundness: theorems alone, in specs/ and proofs/.

#![tactic(auto)]
