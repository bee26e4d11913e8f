//! What to write where the grammar has something else, by the position.

use crate::spots::{Form, Spot, form_of};
use crate::tables::{Entry, advice_in, is_listed};
use source_positions::cil_model::tokens::Symbol;
use source_positions::ilasm_tokens::expected::Expected;
use std::str;

// ---- by the word that stands there

/// The words with which assemblies, classes and members begin.
const DECLARATIONS: &str = ".assembly .class .field .method";

/// The words with which what a method returns begins.
const TYPES: &str = "void int32 int64 object string class";

static CLASSES: &[Entry] = &[
    Entry {
        words: ".assembly",
        advice: "write each `.assembly extern` first, then `.assembly`, then the classes",
    },
    Entry {
        words: ".field .method",
        advice: "write it between the braces of a class",
    },
    Entry {
        words: "class interface public",
        advice: "begin a class with `.class public auto ansi`, an interface with `.class interface public abstract auto ansi`",
    },
    Entry {
        words: "}",
        advice: "leave out this `}`",
    },
];

static MEMBERS: &[Entry] = &[
    Entry {
        words: ".class",
        advice: "write it as a class of its own, after the `}` of the other",
    },
    Entry {
        words: ".field",
        advice: "write it as a static field of a class",
    },
];

static OPEN_BRACES: &[Entry] = &[
    Entry {
        words: DECLARATIONS,
        advice: "write the `{` before it",
    },
    Entry {
        words: "implements",
        advice: "leave out the list: a class lists each interface itself",
    },
];

static CLASS_HEADS: &[Entry] = &[Entry {
    words: "abstract auto ansi",
    advice: "write `public` before it",
}];

static CLASS_ATTRIBUTES: &[Entry] = &[
    Entry {
        words: "interface",
        advice: "write `interface public abstract auto ansi`",
    },
    Entry {
        words: "ansi",
        advice: "write `auto ansi`",
    },
];

static NAMES: &[Entry] = &[
    Entry {
        words: "abstract",
        advice: "write `public abstract auto ansi`",
    },
    Entry {
        words: ".ctor",
        advice: "write `specialname rtspecialname instance void .ctor`",
    },
];

static METHOD_KINDS: &[Entry] = &[Entry {
    words: TYPES,
    advice: "write `static` or `instance` before what is returned",
}];

static RETURN_TYPES: &[Entry] = &[
    Entry {
        words: "hidebysig",
        advice: "write `hidebysig` directly after `public`",
    },
    Entry {
        words: "virtual newslot abstract",
        advice: "write `newslot abstract virtual instance` in this order",
    },
];

static CODE: &[Entry] = &[
    Entry {
        words: DECLARATIONS,
        advice: "write the `}` of the method before it",
    },
    Entry {
        words: "{",
        advice: "leave out the braces: there are no blocks in code",
    },
];

static LINES: &[Entry] = &[
    Entry {
        words: ":",
        advice: "write another label: this word is reserved",
    },
    Entry {
        words: ".entrypoint",
        advice: "write `.entrypoint` before `.maxstack`",
    },
    Entry {
        words: ".maxstack",
        advice: "write `.maxstack` once, before the code",
    },
    Entry {
        words: ".locals",
        advice: "write `.locals` once, directly after `.maxstack`",
    },
];

static LABELLED_LINES: &[Entry] = &[Entry {
    words: "}",
    advice: "write the label before an instruction, as `ret`",
}];

static CLASS_NAMES: &[Entry] = &[
    Entry {
        words: "class",
        advice: "leave out this `class`",
    },
    Entry {
        words: ".ctor",
        advice: "write the class and `::` before it",
    },
    Entry {
        words: "object",
        advice: "write `[mscorlib]System.Object`",
    },
    Entry {
        words: "string",
        advice: "write `[mscorlib]System.String`",
    },
];

/// What is said of words at a position.
fn table_at(expected: Expected) -> &'static [Entry] {
    match expected {
        Expected::Class | Expected::Declaration => CLASSES,
        Expected::Member | Expected::InterfaceMember => MEMBERS,
        Expected::Symbol(Symbol::OpenBrace) => OPEN_BRACES,
        Expected::ClassHead => CLASS_HEADS,
        Expected::ClassAttributes => CLASS_ATTRIBUTES,
        Expected::Name => NAMES,
        Expected::MethodKind => METHOD_KINDS,
        Expected::ReturnType => RETURN_TYPES,
        Expected::Line => LINES,
        Expected::LabelledLine => LABELLED_LINES,
        Expected::ClassName => CLASS_NAMES,
        _ => &[],
    }
}

fn advice_on_word(expected: Expected, found: &str) -> Option<&'static str> {
    let advice = advice_in(table_at(expected), found);
    match expected {
        Expected::Line | Expected::LabelledLine => advice.or(advice_in(CODE, found)),
        _ => advice,
    }
}

// ---- by the form of the token that stands there

fn advice_on_name(expected: Expected, after: &str) -> Option<&'static str> {
    match expected {
        Expected::ClassHead => Some("write `public auto ansi` before the name"),
        Expected::ClassAttributes => Some("write `auto ansi`"),
        Expected::ReturnType if after == "(" => { Some("write `void` or a type before the name") }
        Expected::CalledMethod if is_listed(":: (", after) => {
            Some("write `void` or a type before the class")
        }
        Expected::Type if after == "::" => Some("write the type of the field before the class"),
        Expected::StringLiteral => Some("write a string between two `\"`"),
        Expected::ListEnd(_) => Some("write the types alone, without names"),
        _ => None,
    }
}

fn advice_on_number(expected: Expected) -> Option<&'static str> {
    match expected {
        Expected::Int32 => {
            Some("write it with its sign, as `-1` for 4294967295, or load it by `ldc.i8`")
        }
        Expected::LabelName => Some("write the name of a label"),
        _ => None,
    }
}

fn advice_on_reserved(expected: Expected) -> Option<&'static str> {
    match expected {
        Expected::Name | Expected::MemberName | Expected::LabelName => {
            Some("write another name: this word is reserved")
        }
        _ => None,
    }
}

/// Advice on a bracket that follows a type and is not closed at once. Where a line is expected, the type is the operand of `newarr`.
fn advice_on_array(expected: Expected, after: &str) -> Option<&'static str> {
    if after == "," {
        return Some("write an array of arrays, or one index that is computed");
    }
    match (form_of(after), expected) {
        (Form::Number, Expected::Line) => {
            Some("leave out the brackets: `newarr` takes the length from the stack")
        }
        (Form::Number, _) => Some("write `[]`: `newarr` takes the length from the stack"),
        _ => None,
    }
}

/// What to write where an assembly in brackets stands in place of a type.
const TYPE: &str = "write `class` before it; `int32`, `int64`, `object` and `string` stand alone";

/// Where a type is expected, and a bracket stands before an assembly, a local's number or a parameter's attribute.
fn advice_on_type(after: &str) -> &'static str {
    if let Form::Number = form_of(after) {
        return "write the types of locals without their numbers";
    }
    if is_listed("in out opt", after) {
        return "write the types of parameters without `[in]`, `[out]` and `[opt]`";
    }
    TYPE
}

fn advice_on_bracket(expected: Expected, spot: Spot) -> Option<&'static str> {
    match expected {
        Expected::Line | Expected::ListEnd(_) | Expected::Name => {
            advice_on_array(expected, spot.after)
        }
        Expected::CalledMethod => {
            Some("write `void` or a type first; a class is written after `class`")
        }
        Expected::Type => Some(advice_on_type(spot.after)),
        Expected::ReturnType => Some(TYPE),
        _ => None,
    }
}

fn advice_on_form(expected: Expected, spot: Spot) -> Option<&'static str> {
    match form_of(spot.found) {
        Form::Name => advice_on_name(expected, spot.after),
        Form::Number => advice_on_number(expected),
        Form::Reserved => advice_on_reserved(expected),
        Form::Bracket => advice_on_bracket(expected, spot),
        Form::Other => None,
    }
}

// ---- by the token before, and by the position alone

fn advice_after(expected: Expected, spot: Spot) -> Option<&'static str> {
    match expected {
        Expected::Type if spot.before == "(" && spot.found == ")" => {
            Some("leave out `.locals init ()`")
        }
        Expected::Integer if is_listed("ldarg starg ldloc stloc", spot.before) => {
            Some("write its number: arguments and locals are counted from 0")
        }
        _ => None,
    }
}

fn advice_anyway(expected: Expected, spot: Spot) -> Option<&'static str> {
    match expected {
        Expected::Symbol(Symbol::CloseBrace) => {
            Some("write `{}`: nothing stands between these braces")
        }
        Expected::CodeStart => Some("write `.maxstack 8` before it"),
        Expected::Constructor if spot.after == "void" => {
            Some("write `.ctor` for the name of the method, with its `.`")
        }
        Expected::Constructor => {
            Some("write `void` after `instance`: a constructor returns nothing")
        }
        Expected::VirtualMethod => Some("write `call`, or `newobj` for a new object"),
        Expected::Symbol(Symbol::OpenParenthesis) if !is_listed("init switch", spot.before) => {
            Some("write the types of the parameters between `(` and `)`, or `()` for none")
        }
        _ => None,
    }
}

// ---- where one word alone is expected

static PUBLIC: &[Entry] = &[Entry {
    words: "static",
    advice: "write `public static`",
}];

static EXTENDS: &[Entry] = &[Entry {
    words: "{ implements",
    advice: "write `extends [mscorlib]System.Object` before it",
}];

static VIRTUAL: &[Entry] = &[Entry {
    words: "newslot abstract",
    advice: "write `newslot abstract virtual instance` in this order",
}];

static INSTANCE: &[Entry] = &[
    Entry {
        words: "newslot abstract",
        advice: "write `newslot abstract virtual instance` in this order",
    },
    Entry {
        words: TYPES,
        advice: "write `instance` before what is returned",
    },
];

static INIT: &[Entry] = &[Entry {
    words: "(",
    advice: "write `.locals init`",
}];

fn table_of(word: &str) -> &'static [Entry] {
    match word {
        "public" => PUBLIC,
        "extends" => EXTENDS,
        "virtual" => VIRTUAL,
        "instance" => INSTANCE,
        "init" => INIT,
        _ => &[],
    }
}

fn advice_for(word: &str, found: &str) -> Option<&'static str> {
    match word {
        "rtspecialname" => Some("leave out `specialname`: it stands before `.ctor` alone"),
        ".maxstack" => Some("write `.maxstack 8` before it"),
        _ => advice_in(table_of(word), found),
    }
}

/// What to write in place of a token that the grammar does not have there; None where the position alone says nothing of that.
pub(crate) fn advice_at(expected: Expected, spot: Spot) -> Option<&'static str> {
    if let Expected::Word(word) = expected {
        return advice_for(str::from_utf8(word).unwrap_or(""), spot.found);
    }
    advice_anyway(expected, spot)
        .or(advice_on_word(expected, spot.found))
        .or(advice_on_form(expected, spot))
        .or(advice_after(expected, spot))
}
