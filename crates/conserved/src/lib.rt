// The conservation rule for the values of the code's own calls. There is no code here.
#![tactic(auto)]
