// No code: the kept evaluation of a check, the fresh one, the step, the walk and the outcome of a check, as definitions with their theorems.
#![tactic(auto)]
