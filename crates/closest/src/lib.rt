// Theory only: groups, the answer to a want, candidates over a tree, and why dropping is safe.
#![tactic(auto)]
