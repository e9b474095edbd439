//! No code: the laws of every trace, stated without tables and positions, and their proofs.
#![tactic(auto)]
