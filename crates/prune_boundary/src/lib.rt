// The boundary of a prune: what a reading has left behind, the nodes that lose entries, and the nodes that go. Theorems only.

#![tactic(auto)]
