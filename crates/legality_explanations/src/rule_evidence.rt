//! What breaks a rule, and where.

use crate::advice::Advice;
use crate::sites::Sites;
use std::fmt;

/// What breaks a rule. It prints as one sentence without an end.
pub trait Evidence: fmt::Display {
    /// What is said at the location with which it does not agree.
    fn note(&self) -> &'static str {
        "that method is declared here"
    }

    /// What to write instead; None where its sentence says it, or nothing is to be said.
    fn advice(&self) -> Option<Advice<'_>> {
        None
    }
}

/// What breaks a rule, and where it is.
pub type Located<B> = (B, Sites);
