// What holds of packets, whoever reads and sends them. No code: the theorems are in proofs/.
#![tactic(auto)]
