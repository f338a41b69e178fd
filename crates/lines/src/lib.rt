// Theory only: numbers as text, lines `key=value`, and sheets made of them.
#![tactic(auto)]
