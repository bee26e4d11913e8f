//! Classes that stand in the chain of their own base (number 203).

ghost use Rattle.std.specs.Prelude.{IfSome};
ghost use Rattle.legality_explanations.specs.Locations.{IsOfClass};

use crate::rule_evidence::{Evidence, Located};
use crate::sentences::{write_one, write_two};
use crate::sites::{Sites, class_key};
use source_positions::name_tables::ids::ClassId;
use source_positions::name_tables::keys::ClassKey;
use source_positions::name_tables::lookups::NameTables;
use source_positions::{ClassPart, ClassText, Location};
use std::fmt;

/// The most bases that are named.
const MOST_NAMED: usize = 8;

/// A class that is met again among its bases.
#[derive(Clone, Copy)]
pub struct CyclicBase<'a> {
    pub class: ClassKey<'a>,
    /// Its first bases, in their order.
    pub bases: [Option<ClassKey<'a>>; MOST_NAMED],
}

/// Its bases are named in their order, until it is met again; no more than the first eight of them.
impl fmt::Display for CyclicBase<'_> {
    fn fmt<W: fmt::Write>(&self, f: &mut fmt::Formatter<W>) -> fmt::Result {
        let class = ClassText(self.class);
        write_two(
            f,
            "the class `",
            &class,
            "` inherits from itself: `",
            &class,
            "`",
        )?;
        write_bases(f, self)
    }
}

impl Evidence for CyclicBase<'_> {}

fn write_bases<W: fmt::Write>(f: &mut fmt::Formatter<W>, cyclic_base: &CyclicBase) -> fmt::Result {
    for base in &cyclic_base.bases {
        let Some(base) = base else {
            break;
        };
        write_one(f, " extends `", &ClassText(*base), "`")?;
        if *base == cyclic_base.class {
            return Ok(());
        }
    }
    f.write_str(" and so on")
}

/// The names of the first bases of a class.
fn bases_of<'a>(names: &NameTables<'a>, class: ClassId) -> [Option<ClassKey<'a>>; MOST_NAMED] {
    let mut bases = [None; MOST_NAMED];
    let mut next = names.base(class);
    for index in 0..MOST_NAMED {
        let Some(id) = next else {
            break;
        };
        bases[index] = class_key(names, id);
        next = names.base(id);
    }
    bases
}

/// A class that is its own base. None where the tree has no such class.
pub(crate) fn cyclic_base<'a>(
    names: &NameTables<'a>,
    class: usize,
) -> Option<Located<CyclicBase<'a>>>
    ensures { IfSome result (λ found. IfSome found.1.location (IsOfClass class)) }
{
    let declared = names.classes.tree.classes.as_slice().get(class)?;
    let key = ClassKey::of_source(declared);
    let bases = bases_of(names, names.classes.id(key)?);
    let part = ClassPart::Base;
    let location = Location::InClass { class, part };
    Some((CyclicBase { class: key, bases }, Sites::at(location)))
}
