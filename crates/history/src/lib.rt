// The conservation rule of documents 01 and 02 over every list of calls, with the definitions that it needs in `specs/`. There is no code here.
#![tactic(auto)]
