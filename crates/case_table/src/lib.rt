// 01's cases: the table is in specs/, and proofs/ computes it.

#![tactic(auto)]
