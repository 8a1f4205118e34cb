// What is demanded of a change of a setting, over the bytes of a sheet and of its results, as definitions with their proofs. No function stands here.
#![tactic(auto)]
