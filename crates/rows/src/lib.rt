// Theory only: the place sheet, its bytes and what reading any bytes gives.
#![tactic(auto)]
