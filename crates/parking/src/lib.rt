// The conservation rule of documents 01 and 02 over every list of calls with stores and loads in it (02, M-104). There is no code here.
#![tactic(auto)]
