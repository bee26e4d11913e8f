//! How many entries of which events each worker has made: counts that contracts alone read.

pub(crate) mod book;
pub(crate) mod view;
