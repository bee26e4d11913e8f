//! What to write in place of names that this profile lacks.

use crate::sentences::{write_one, write_two};
use crate::sites::key_of;
use crate::unknown::{Role, Unknown, library_of};
use metadata::violations::ClassFault;
use source_positions::cil_model::trees::{Field, Method};
use source_positions::name_tables::keys::{ClassKey, FieldKey, MethodKey};
use source_positions::name_tables::kinds::is_static;
use std::fmt;

/// What to write in place of what breaks a rule. It prints as one sentence without an end.
#[derive(Clone, Copy)]
pub enum Advice<'a> {
    /// This sentence.
    Sentence(&'static str),
    /// The declaration of this library.
    Extern(&'a str),
    /// This name, which differs in letter case.
    Name(&'a str),
    /// A class of a library.
    BuiltIn {
        library: &'static str,
        class: &'a str,
    },
}

impl fmt::Display for Advice<'_> {
    fn fmt<W: fmt::Write>(&self, f: &mut fmt::Formatter<W>) -> fmt::Result {
        match *self {
            Advice::Sentence(sentence) => f.write_str(sentence),
            Advice::Extern(library) => {
                let after = " {}` before the classes";
                write_one(f, "write `.assembly extern ", &library, after)
            }
            Advice::Name(name) => {
                let after = "`: names are case-sensitive";
                write_one(f, "write `", &name, after)
            }
            Advice::BuiltIn { library, class } => {
                write_two(f, "write `[", &library, "]", &class, "`")
            }
        }
    }
}

/// What to write in place of a type that is no class of the source, nor of this profile's libraries.
fn advice_on_type(name: &str) -> Option<&'static str> {
    match name {
        "Object" | "System.Object" => Some("write `object`, without `class`"),
        "String" | "System.String" => Some("write `string`, without `class`"),
        "System.Boolean" | "System.Char" | "System.Byte" | "System.Int32" => {
            Some("write `int32`, without `class`")
        }
        "System.Int64" => Some("write `int64`, without `class`"),
        "System.Array" => Some("write a type with brackets, as `int32[]`"),
        _ => None,
    }
}

/// What to write in place of a class that is none of the source, nor of this profile's libraries.
fn advice_on_class(name: &str) -> Option<&'static str> {
    match name {
        "Object" => Some("write `[mscorlib]System.Object`"),
        "String" => Some("write `[mscorlib]System.String`"),
        "Console" => Some("write `[mscorlib]System.Console`"),
        "Monitor" => Some("write `[mscorlib]System.Threading.Monitor`"),
        "Thread" | "System.Threading.Thread" => Some("write `[cilvm]Cilvm.Thread`"),
        "System.Enum" => Some("write `int32`: there are no value types"),
        "System.ValueType" => Some("write a class: there are no value types"),
        "System.Delegate" | "System.MulticastDelegate" => {
            Some("write an interface with one method")
        }
        "System.Exception" => Some("write the code without handlers: a fault ends its thread"),
        _ => None,
    }
}

/// What to write in place of a class by its name alone.
fn advice_on_name(name: &str, role: Role) -> Option<&'static str> {
    match (role, advice_on_type(name)) {
        (Role::Type, Some(advice)) => Some(advice),
        _ => advice_on_class(name),
    }
}

/// What to write in place of a class that is not there, or whose assembly is not declared.
fn advice_on_absent_class<'a>(class: ClassKey<'a>, role: Role) -> Option<Advice<'a>> {
    let name = class.name.as_str();
    if let Some(sentence) = advice_on_name(name, role) {
        return Some(Advice::Sentence(sentence));
    }
    if let Some(library) = library_of(name) {
        let class = name;
        return Some(Advice::BuiltIn { library, class });
    }
    match (class.assembly, role) {
        (None, _) => None,
        (Some(_), Role::Interface) => Some(Advice::Sentence("write an interface of the source")),
        (Some(_), _) => Some(Advice::Sentence("write a class of the source")),
    }
}

/// What to write in place of a class that may not be named so.
fn advice_on_fault<'a>(class: ClassKey<'a>, role: Role, fault: ClassFault) -> Option<Advice<'a>> {
    let assembly = match class.assembly {
        None => "",
        Some(assembly) => assembly.as_str(),
    };
    match fault {
        ClassFault::NoExtern if matches!(assembly, "mscorlib" | "cilvm") => {
            Some(Advice::Extern(assembly))
        }
        ClassFault::NoExtern | ClassFault::Absent => advice_on_absent_class(class, role),
        ClassFault::IsInterface => Some(Advice::Sentence(
            "write it after `implements`, which follows `extends [mscorlib]System.Object`",
        )),
        ClassFault::IsClass => Some(Advice::Sentence(
            "a class has one base, which is named after `extends`",
        )),
        ClassFault::IsBuiltIn => None,
    }
}

/// What to write in place of a method of a built-in class that it lacks, by the class.
fn advice_on_member(owner: &str) -> Option<&'static str> {
    match owner {
        "System.Console" => Some("write `WriteLine` of one `int32`, `int64` or `string`"),
        "System.Threading.Monitor" => Some("write `Enter(object)` and `Exit(object)`"),
        "System.String" => Some("a string can be loaded, compared as a reference, and printed"),
        "Cilvm.Thread" => Some("write `instance void Start()` or `instance void Join()`"),
        _ => None,
    }
}

/// What to write in place of a method that is not there.
fn advice_on_method(owner: ClassKey, method: MethodKey) -> Option<&'static str> {
    match method.name?.as_str() {
        "ctor" => Some("write `.ctor`, with its `.`"),
        "ToString" | "GetHashCode" | "GetType" | "Equals" => {
            Some("write a virtual method of a class of the source")
        }
        "Sleep" | "Yield" | "SpinWait" => {
            Some("leave the call out: a schedule decides which thread runs, and there is no clock")
        }
        _ if owner.assembly.is_some() => advice_on_member(owner.name.as_str()),
        _ => None,
    }
}

/// The instructions for a field that is static where an instance field is named, or the other way round.
fn advice_on_near_field(field: FieldKey, near: &Field) -> Option<&'static str> {
    match (field.is_static, near.is_static) {
        (false, true) => Some("write `ldsfld` or `stsfld` for a static field"),
        (true, false) => Some("write `ldfld` or `stfld` for an instance field"),
        _ => None,
    }
}

/// What to write where a method is named that has another kind than that which is there.
fn advice_on_near_method(
    method: MethodKey,
    is_called_static: bool,
    near: &Method,
) -> Option<&'static str> {
    let found = key_of(near);
    if method.name.is_none() && found.name.is_some() {
        return Some(
            "declare a constructor by `.method public specialname rtspecialname instance void .ctor`",
        );
    }
    match (is_called_static, is_static(&near.kind)) {
        (true, false) => Some("write `callvirt instance` for an instance method"),
        (false, true) => Some("write `call` without `instance` for a static method"),
        _ => None,
    }
}

fn advice_on_member_near<'a>(unknown: &Unknown<'a>) -> Option<&'static str> {
    match unknown {
        Unknown::Field {
            field,
            near: Some(near),
            ..
        } => advice_on_near_field(*field, near),
        Unknown::Method {
            method,
            is_static,
            near: Some(near),
            ..
        } => advice_on_near_method(*method, *is_static, near),
        _ => None,
    }
}

/// What to write in place of a name that denotes nothing of the kind needed.
pub(crate) fn advice_on<'a>(unknown: &Unknown<'a>) -> Option<Advice<'a>> {
    match unknown {
        Unknown::Extern(_) => Some(Advice::Extern("mscorlib")),
        Unknown::Class {
            near: Some(near),
            ..
        }
        | Unknown::Label {
            near: Some(near),
            ..
        } => Some(Advice::Name(near.as_str())),
        Unknown::Class {
            class,
            role,
            fault,
            ..
        } => advice_on_fault(*class, *role, *fault),
        Unknown::Method { owner, method, .. } => {
            let sentence = advice_on_method(*owner, *method).or(advice_on_member_near(unknown))?;
            Some(Advice::Sentence(sentence))
        }
        Unknown::Field { .. } => Some(Advice::Sentence(advice_on_member_near(unknown)?)),
        Unknown::Label { near: None, .. } => None,
    }
}
