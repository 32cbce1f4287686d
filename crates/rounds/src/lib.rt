// The foreman's book and the board of a bus together: specs/ has the statements, proofs/ shows them. There is no code here.
#![tactic(auto)]
