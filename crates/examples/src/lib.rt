// The starred examples of document 01, one list, and those of document 02, proved from the definitions (specs/).
#![tactic(auto)]
