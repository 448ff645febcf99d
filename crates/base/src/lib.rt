// No code: definitions and laws on tests, numbers and lists that the other crates share.
#![tactic(auto)]
