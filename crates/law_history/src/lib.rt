// What any history of calls answers and leaves. Theorems only.

#![tactic(auto)]
