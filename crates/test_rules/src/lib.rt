//! Worked examples of the rules, and random ones of an independent program, by the definitions alone: `proofs/` computes each.
#![tactic(auto)]
