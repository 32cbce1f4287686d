// Lemmas that the kit's library lacks and several crates cite: see proofs/. There is no code here.
#![tactic(auto)]
