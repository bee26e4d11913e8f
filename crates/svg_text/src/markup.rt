//! Tags, attributes and words (XML 1.0).

use std::fmt;
use std::fmt::Display;

/// The name of an element.
#[derive(Clone, Copy)]
pub enum Tag {
    Circle,
    Path,
    Rect,
    Style,
    Svg,
    Text,
    Title,
}

impl fmt::Display for Tag {
    ghost use Rattle.std.specs.Prelude.{Some};
    ghost use Rattle.svg_text.specs.Elements.{tag_text};

    ghost output = { λ tag. Some (tag_text tag) };

    fn fmt<W: fmt::Write>(&self, f: &mut fmt::Formatter<W>) -> fmt::Result {
        f.write_str(match self {
            Tag::Circle => "circle",
            Tag::Path => "path",
            Tag::Rect => "rect",
            Tag::Style => "style",
            Tag::Svg => "svg",
            Tag::Text => "text",
            Tag::Title => "title",
        })
    }
}

/// The name of an attribute.
#[derive(Clone, Copy)]
pub enum Name {
    Class,
    CenterX,
    CenterY,
    Data,
    Fill,
    Height,
    Namespace,
    PreserveAspectRatio,
    Radius,
    Stroke,
    Transform,
    ViewBox,
    Width,
    X,
    Y,
}

impl fmt::Display for Name {
    ghost use Rattle.std.specs.Prelude.{Some};
    ghost use Rattle.svg_text.specs.Elements.{name_text};

    ghost output = { λ name. Some (name_text name) };

    fn fmt<W: fmt::Write>(&self, f: &mut fmt::Formatter<W>) -> fmt::Result {
        f.write_str(match self {
            Name::Class => "class",
            Name::CenterX => "cx",
            Name::CenterY => "cy",
            Name::Data => "d",
            Name::Fill => "fill",
            Name::Height => "height",
            Name::Namespace => "xmlns",
            Name::PreserveAspectRatio => "preserveAspectRatio",
            Name::Radius => "r",
            Name::Stroke => "stroke",
            Name::Transform => "transform",
            Name::ViewBox => "viewBox",
            Name::Width => "width",
            Name::X => "x",
            Name::Y => "y",
        })
    }
}

/// Words in printable characters, none of which is taken for markup.
#[derive(Clone, Copy)]
pub(crate) struct Escaped<'a>(pub(crate) &'a [u8]);

/// Each byte as `EscapedByte` writes it.
impl<'a> fmt::Display for Escaped<'a> {
    ghost use Rattle.std.specs.Prelude.{Some};
    ghost use Rattle.svg_text.specs.Elements.{escape};

    ghost output = { λ words. Some (escape words.0.now) };

    fn fmt<W: fmt::Write>(&self, f: &mut fmt::Formatter<W>) -> fmt::Result {
        for byte in self.0 {
            EscapedByte(*byte).fmt(f)?;
        }
        Ok(())
    }
}

/// One byte of words.
#[derive(Clone, Copy)]
struct EscapedByte(u8);

/// `&`, `<` and `"` by their references, and what is not printable as a question mark.
impl fmt::Display for EscapedByte {
    ghost use Rattle.std.specs.Prelude.{Some};
    ghost use Rattle.svg_text.specs.Elements.{escaped_byte};

    ghost output = { λ byte. Some (escaped_byte byte.0) };

    fn fmt<W: fmt::Write>(&self, f: &mut fmt::Formatter<W>) -> fmt::Result {
        match self.0 {
            b'&' => f.write_str("&amp;"),
            b'<' => f.write_str("&lt;"),
            b'>' => f.write_str("&gt;"),
            b'"' => f.write_str("&quot;"),
            byte @ b' '..=b'~' => write!(f, "{}", char::from(byte)),
            _ => f.write_str("?"),
        }
    }
}

/// The value of an attribute: a number in decimal digits, or words.
#[derive(Clone, Copy)]
pub enum Value<'a> {
    Number(usize),
    Words(&'a str),
}

impl<'a> fmt::Display for Value<'a> {
    ghost use Rattle.std.specs.Prelude.{Some};
    ghost use Rattle.svg_text.specs.Elements.{value_text};

    ghost output = { λ value. Some (value_text value) };

    fn fmt<W: fmt::Write>(&self, f: &mut fmt::Formatter<W>) -> fmt::Result {
        match self {
            Value::Number(number) => write!(f, "{number}"),
            Value::Words(words) => Escaped(words.as_bytes()).fmt(f),
        }
    }
}

/// An attribute of an element.
#[derive(Clone, Copy)]
pub struct Attribute<'a> {
    pub name: Name,
    pub value: Value<'a>,
}

impl<'a> Attribute<'a> {
    ghost use Rattle.std.specs.Prelude.{◌≡◌, decimal};
    ghost use Rattle.svg_text.specs.Elements.{escape, value_text};

    /// An attribute whose value is a number.
    pub fn number(name: Name, number: usize) -> Attribute<'a>
        ensures name { result.name ≡ name }
        ensures value { value_text result.value ≡ decimal number }
    {
        Attribute {
            name,
            value: Value::Number(number),
        }
    }

    /// An attribute whose value is words.
    pub fn words(name: Name, words: &'a str) -> Attribute<'a>
        ensures name { result.name ≡ name }
        ensures value { value_text result.value ≡ escape words.now }
    {
        Attribute {
            name,
            value: Value::Words(words),
        }
    }
}

impl<'a> fmt::Display for Attribute<'a> {
    ghost use Rattle.std.specs.Prelude.{Some};
    ghost use Rattle.svg_text.specs.Elements.{attribute_text};

    ghost output = { λ attribute. Some (attribute_text attribute) };

    fn fmt<W: fmt::Write>(&self, f: &mut fmt::Formatter<W>) -> fmt::Result {
        let Attribute { name, value } = self;
        write!(f, " {name}=\"{value}\"")
    }
}

/// Attributes, one after another.
#[derive(Clone, Copy)]
pub(crate) struct Attributes<'a>(pub(crate) &'a [Attribute<'a>]);

impl<'a> fmt::Display for Attributes<'a> {
    ghost use Rattle.std.specs.Prelude.{Some};
    ghost use Rattle.svg_text.specs.Elements.{attributes_text};

    ghost output = { λ attributes. Some (attributes_text attributes.0.now) };

    fn fmt<W: fmt::Write>(&self, f: &mut fmt::Formatter<W>) -> fmt::Result {
        for attribute in self.0 {
            attribute.fmt(f)?;
        }
        Ok(())
    }
}

/// A tag up to its end: its name and its attributes.
#[derive(Clone, Copy)]
pub(crate) struct Start<'a> {
    pub(crate) tag: Tag,
    pub(crate) attributes: &'a [Attribute<'a>],
}

impl<'a> fmt::Display for Start<'a> {
    ghost use Rattle.std.specs.Prelude.{Some};
    ghost use Rattle.svg_text.specs.Elements.{start_text};

    ghost output = { λ start. Some (start_text start.tag start.attributes.now) };

    fn fmt<W: fmt::Write>(&self, f: &mut fmt::Formatter<W>) -> fmt::Result {
        let tag = self.tag;
        let attributes = Attributes(self.attributes);
        write!(f, "<{tag}{attributes}")
    }
}
