//! The definitions computed on small programs: questions with their answers in proofs/, which the check computes.
#![tactic(auto)]
