// What was asked, stated and proved over the promises of the functions. No functions here.
#![tactic(auto)]
