// The definitions of documents 01 and 02 as `specs/` has them, with what is proved of them alone. There is no code here.
#![tactic(auto)]
