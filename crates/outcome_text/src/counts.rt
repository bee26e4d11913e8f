//! Numbers with what they count.

use std::fmt;

/// A number and its noun, which takes an `s` unless the number is 1.
#[derive(Clone, Copy)]
pub(crate) struct CountText<'a> {
    pub(crate) number: usize,
    pub(crate) noun: &'a str,
}

impl<'a> fmt::Display for CountText<'a> {
    ghost use Rattle.std.specs.Prelude.{Some};
    ghost use Rattle.outcome_text.specs.Outcomes.{count_text};

    ghost output = { λ text. Some (count_text text.number text.noun.now) };

    fn fmt<W: fmt::Write>(&self, f: &mut fmt::Formatter<W>) -> fmt::Result {
        let CountText { number, noun } = *self;
        let ending = if number == 1 { "" } else { "s" };
        write!(f, "{number} {noun}{ending}")
    }
}
