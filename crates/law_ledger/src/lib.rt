// What each call means to the plain ledger that a store holds. Theorems only.

#![tactic(auto)]
