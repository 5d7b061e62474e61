// An append keeps a well-formed store well-formed and adds its entry; a created store is well-formed. Theorems only.

#![tactic(auto)]
