// Document 01's starred worked values and those of the change requests. No code: the cases are in specs/, the theorem in proofs/.
#![tactic(auto)]
