// The owner's demands, as statements about the definitions that the promises cite: specs/ has the statements, proofs/ shows
// them. There is no code here.
#![tactic(auto)]
