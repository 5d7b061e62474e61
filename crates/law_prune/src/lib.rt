// Laws of prune: the cut of a well-formed tree, the words it leaves, and the call's answers.

#![tactic(auto)]
