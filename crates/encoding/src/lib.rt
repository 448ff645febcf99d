// No code: the bytes of a theory file and the values it holds, both ways.
#![tactic(auto)]
