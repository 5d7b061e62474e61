// What well-formedness gives: the working form of it, and the ledger that a store holds. Theorems only.

#![tactic(auto)]
