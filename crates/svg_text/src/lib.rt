//! Writes SVG: elements with attributes, and words in which no character is taken for markup.
//! What is drawn has a class of the style of pictures.
//! A `Content` is well formed whatever is put into it, and is seen by contracts as its exact text; none where memory ran out.
#![tactic(auto)]

mod content;
mod markup;
mod style;

pub use content::{Area, Content};
pub use markup::{Attribute, Name, Tag, Value};
pub use style::{Class, Color, STYLE};
