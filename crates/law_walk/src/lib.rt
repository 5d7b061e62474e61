// Laws of whole walks over the leaves.

#![tactic(auto)]
