// No code: what demand 2 says of ranks, and demand 3, stated of the public calls' outcomes.
#![tactic(auto)]
