// No code: formulas, stable models, plans, and the theorem that a planned theory's stable models are its supported models.
#![tactic(auto)]
