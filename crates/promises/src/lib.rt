// The three demands over what the contracts of the public functions allow. No code: the words are in specs/, the theorems in
// proofs/Demands.antt, and under them the other files of proofs/.
#![tactic(auto)]
