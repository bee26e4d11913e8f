//! Splits an ilasm source into tokens (ECMA-335 II.5.2).
//! `tokens` returns exactly the tokens of a source, and refuses only a source that has none; `token_offset` returns the offset at which a token
//! begins. A source has at most one list of tokens (`laws`).
#![tactic(auto)]

mod bytes;
pub mod expected;
pub mod failure;
pub mod laws;
mod lexemes;
pub mod source;
pub mod source_tokens;
mod spaces;
pub mod words;
