// 01's example of a script and further ones, computed over the definitions.

#![tactic(auto)]
