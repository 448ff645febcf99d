// No code: graphs, their paths and cycles, Kahn's removal, and least ranks. Crate `kahn` derives the ranks.
#![tactic(auto)]
