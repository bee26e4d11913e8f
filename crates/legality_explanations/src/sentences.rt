//! Sentences of one shape, each proved once: names, with what stands before, between and after them.

use std::fmt;

pub(crate) fn write_one<W: fmt::Write, N: fmt::Display>(
    f: &mut fmt::Formatter<W>,
    before: &str,
    name: &N,
    after: &str,
) -> fmt::Result {
    write!(f, "{before}{name}{after}")
}

pub(crate) fn write_two<W: fmt::Write, N: fmt::Display, O: fmt::Display>(
    f: &mut fmt::Formatter<W>,
    before: &str,
    name: &N,
    between: &str,
    other: &O,
    after: &str,
) -> fmt::Result {
    write!(f, "{before}{name}{between}{other}{after}")
}
