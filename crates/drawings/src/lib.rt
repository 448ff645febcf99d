// No code: document 01's drawings, worked out of the definitions.
#![tactic(auto)]
