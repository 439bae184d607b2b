// That every call keeps `Valid`, and that the rounds of a close end by themselves. There is no code here.
#![tactic(auto)]
