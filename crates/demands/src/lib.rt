// No code: the three demands, stated of the public calls' outcomes.
#![tactic(auto)]
