// No code: worked cases of the public calls, with document 01's figures.
#![tactic(auto)]
