// No functions: what document 01 asks for, stated in its own words and proved by citing the crates that do it.
#![tactic(auto)]
