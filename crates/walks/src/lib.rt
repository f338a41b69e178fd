// Theory only: what any walk that drops comes to.
#![tactic(auto)]
