// What the proofs of every crate share. No code: the laws are in specs/.
#![tactic(auto)]
