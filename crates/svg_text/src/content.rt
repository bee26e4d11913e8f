//! What stands in an element, put together in memory.

ghost use Rattle.std.specs.Prelude.{◌≡◌, ◌++◌, [], IfOk, List, None, Some, ℕ, string_bytes};
ghost use Rattle.svg_text.specs.Elements.{element_text, empty_text, escape};
ghost use Rattle.svg_text.specs.Contents.{Adds, AddsIfWhole, IsContent, IsDocument};
ghost use Rattle.svg_text.specs.declared.markup.Tag.TheVariants.{Svg};

use crate::markup::{Attribute, Escaped, Name, Start, Tag};
use crate::style::{Class, Color};
use std::alloc::{AllocError, Global};
use std::fmt::{Display, Write};
use std::marker::Model;
use std::mem;

/// A part of a picture: its upper left corner and its size.
#[derive(Clone, Copy)]
pub struct Area {
    pub x: usize,
    pub y: usize,
    pub width: usize,
    pub height: usize,
}

/// Words and elements, put together one after another: well-formed content. Where memory runs out all is lost, and `into_document` says so; so
/// whoever draws looks at no error. Contracts see the text, and none where it is lost.
#[derive(Drop)]
pub struct Content {
    alloc: Global,
    text: String,
    /// What has been put of the next path or label.
    pending: String,
    is_whole: bool,
}

impl Model for Content {
    ghost use Rattle.std.specs.Prelude.{Option, List, ℕ, string_bytes};
    ghost use Rattle.svg_text.specs.Contents.{IsFormed, text_if_whole};

    ghost Value = { Option (List ℕ) };

    ghost view = { λ c. text_if_whole c.is_whole (string_bytes c.text) };

    ghost invariant = { λ c. ∥ IsFormed c.is_whole (string_bytes c.text) ∥₁ };
}

impl Content {
    /// Nothing. Takes no memory.
    pub fn new(alloc: Global) -> Content
        ensures { result ≡ Some [] }
    {
        Content {
            alloc,
            text: String::new(alloc),
            pending: String::new(alloc),
            is_whole: true,
        }
    }

    /// Appends an element with nothing in it.
    pub fn empty(&mut self, tag: Tag, attributes: &[Attribute])
        ensures { Adds self.old self.new (empty_text tag attributes.now) }
    {
        let start = Start { tag, attributes };
        match write!(self.text, "{start}/>\n") {
            Ok(()) => {}
            Err(_) => self.is_whole = false,
        }
    }

    /// Appends an element with words in it.
    pub fn words(&mut self, tag: Tag, attributes: &[Attribute], words: &[u8])
        ensures { Adds self.old self.new (element_text tag attributes.now (escape words.now)) }
    {
        let start = Start { tag, attributes };
        let words = Escaped(words);
        match write!(self.text, "{start}>{words}</{tag}>\n") {
            Ok(()) => {}
            Err(_) => self.is_whole = false,
        }
    }

    /// Appends an element with other content in it. All is lost where that was.
    pub fn around(&mut self, tag: Tag, attributes: &[Attribute], inside: &Content)
        ensures { AddsIfWhole self.old self.new inside.now (λ text. element_text tag attributes.now text) }
    {
        if inside.is_whole {
            let start = Start { tag, attributes };
            let inside_text = inside.text.as_str();
            match write!(self.text, "{start}>{inside_text}</{tag}>\n") {
                Ok(()) => {}
                Err(_) => self.is_whole = false,
            }
        } else {
            self.lose();
        }
    }

    /// Appends other content. All is lost where that was.
    pub fn append(&mut self, more: &Content)
        ensures { AddsIfWhole self.old self.new more.now (λ text. text) }
    {
        if more.is_whole {
            self.add(more.text.as_str());
        } else {
            self.lose();
        }
    }

    /// Appends well-formed content.
    fn add(&mut self, piece: &str)
        requires { ∥ IsContent piece.now ∥₁ }
        ensures { Adds self.old self.new piece.now }
    {
        if let Ok(()) = self.text.push_str(piece) {
            return;
        }
        self.is_whole = false;
    }

    /// All is lost, since memory ran out for what was to be appended.
    pub fn lose(&mut self)
        ensures { self.new ≡ None }
    {
        self.is_whole = false;
    }

    /// The document with this content. The only error is out of memory, also where it was met before.
    pub fn into_document(
        self,
        alloc: Global,
        attributes: &[Attribute],
    ) -> Result<String, AllocError>
        ensures formed { IfOk result (λ document. ∥ IsDocument (string_bytes document) ∥₁) }
        ensures text { IfOk result (λ document. (inside : List ℕ) × (self ≡ Some inside) × (string_bytes document ≡ element_text Svg attributes.now inside)) }
    {
        let Content { text, is_whole, .. } = self;
        if is_whole {
            let tag = Tag::Svg;
            let start = Start { tag, attributes };
            let document = format!(in alloc; "{start}>{text}</{tag}>\n")?;
            Ok(document)
        } else {
            Err(AllocError)
        }
    }
}

/// Shapes and labels, each drawn by its class in the style, and in a color.
impl Content {
    /// Appends a rectangle.
    pub fn rect(&mut self, class: Class, area: Area) {
        self.empty(
            Tag::Rect,
            &[
                Attribute::words(Name::Class, class.name()),
                Attribute::number(Name::X, area.x),
                Attribute::number(Name::Y, area.y),
                Attribute::number(Name::Width, area.width),
                Attribute::number(Name::Height, area.height),
            ],
        );
    }

    /// Appends a path of these data.
    pub fn path_of(&mut self, class: Class, color: Color, data: &str)
        ensures { (before : List ℕ) × (after : List ℕ) × Adds self.old self.new (before ++ escape data.now ++ after) }
    {
        self.empty(
            Tag::Path,
            &[
                Attribute::words(Name::Class, class.name()),
                Attribute::words(Name::Stroke, color.text()),
                Attribute::words(Name::Data, data),
            ],
        );
    }

    /// Appends a circle.
    pub fn circle(&mut self, class: Class, color: Color, x: usize, y: usize, radius: usize) {
        self.empty(
            Tag::Circle,
            &[
                Attribute::words(Name::Class, class.name()),
                Attribute::words(Name::Stroke, color.text()),
                Attribute::number(Name::CenterX, x),
                Attribute::number(Name::CenterY, y),
                Attribute::number(Name::Radius, radius),
            ],
        );
    }

    /// Appends a label at this point.
    pub fn label(&mut self, class: Class, color: Color, x: usize, y: usize, words: &[u8]) {
        self.words(
            Tag::Text,
            &[
                Attribute::words(Name::Class, class.name()),
                Attribute::words(Name::Fill, color.text()),
                Attribute::number(Name::X, x),
                Attribute::number(Name::Y, y),
            ],
            words,
        );
    }

    /// Appends a label that is turned by 90 degrees at this point, to be read upwards.
    pub fn label_up(&mut self, class: Class, x: usize, y: usize, words: &[u8]) {
        self.put("translate");
        self.put_point('(', x, y);
        self.put(") rotate(-90)");
        let index = self.take_pending();
        self.words(
            Tag::Text,
            &[
                Attribute::words(Name::Class, class.name()),
                Attribute::words(Name::Transform, index.as_str()),
            ],
            words,
        );
    }
}

/// Paths and labels that are put together from pieces.
impl Content {
    /// Appends words to the next path or label.
    pub fn put(&mut self, words: &str) {
        if self.pending.push_str(words).is_err() {
            self.lose();
        }
    }

    /// Puts a number in decimal digits.
    pub fn put_number(&mut self, number: usize) {
        let put = write!(self.pending, "{number}");
        if put.is_err() {
            self.lose();
        }
    }

    /// Puts a command of a path, and the coordinate that it goes to.
    pub fn put_command(&mut self, command: char, to: usize) {
        let put = write!(self.pending, "{command}{to}");
        if put.is_err() {
            self.lose();
        }
    }

    /// Puts a command of a path, and the point that it goes to.
    pub fn put_point(&mut self, command: char, x: usize, y: usize) {
        self.put_command(command, x);
        self.put_command(' ', y);
    }

    /// Appends a path of what has been put.
    pub fn path(&mut self, class: Class, color: Color) {
        let data = self.take_pending();
        self.path_of(class, color, data.as_str());
    }

    /// Appends a label of what has been put, at this point.
    pub fn text(&mut self, class: Class, color: Color, x: usize, y: usize) {
        let words = self.take_pending();
        self.label(class, color, x, y, words.as_str().as_bytes());
    }

    /// Appends a path from a point, by these commands.
    pub fn shape(&mut self, class: Class, color: Color, x: usize, y: usize, commands: &str) {
        self.put_point('M', x, y);
        self.put(commands);
        self.path(class, color);
    }

    /// Appends a line from a point: a command, `H` or `V`, to this coordinate.
    pub fn line(
        &mut self,
        class: Class,
        color: Color,
        x: usize,
        y: usize,
        command: char,
        to: usize,
    ) {
        self.put_point('M', x, y);
        self.put_command(command, to);
        self.path(class, color);
    }

    /// What has been put. Nothing is put then.
    fn take_pending(&mut self) -> String {
        mem::replace(&mut self.pending, String::new(self.alloc))
    }
}
