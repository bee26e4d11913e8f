//! The methods of one name and signature, and the slots that they fill (ECMA-335 II.10.3 and II.12.2).

ghost use Rattle.std.specs.Prelude.{◌≡◌, ◌==◌, IfOk, false, map, find};
ghost use Rattle.std.specs.Option.{option_map_or};
ghost use Rattle.class_layout.specs.SlotUses.{slot_use_in, slot_use_at, own_at, is_virtual_at, slot_by_use, slot_from, slot_along, implementation_from, implementation_along, filled_along, listed_implementation};
ghost use Rattle.class_layout.specs.Targets.{is_implementer};

use crate::classes::Classes;
use crate::rows::entry_at;
use crate::slot_uses::{SlotUse, own_index, uses_by_class};
use cil_model::memory::NoMemory;
use name_tables::ids::{ClassId, MethodId};
use std::alloc::Global;

/// The methods of one name and signature: the slot use of the first one of each class, by the classes' numbers.
#[derive(Drop)]
pub struct MethodFamilies<'p> {
    pub classes: &'p Classes<'p>,
    pub identity: usize,
    slot_uses: Vec<Option<SlotUse>>,
    ghost slot_uses_are: { slot_uses.items ≡ map (λ r. slot_use_in identity r.methods) classes.now.all.now },
}

/// The slot that a method of a class fills over the one that it inherits. A slot is known by the class that introduced it.
fn slot_filled(class: ClassId, inherited: Option<ClassId>, slot_use: SlotUse) -> Option<ClassId>
    ensures { result ≡ slot_by_use class inherited slot_use }
{
    match slot_use {
        SlotUse::Plain => None,
        SlotUse::ReuseSlot => Some(inherited.unwrap_or(class)),
        SlotUse::NewSlot => Some(class),
    }
}

fn is_slot(slot: &Option<ClassId>, required: ClassId) -> bool
    ensures { result ≡ option_map_or (λ s. s == required) slot.now false }
{
    match slot {
        None => false,
        Some(class) => *class == required,
    }
}

fn is_implementer(classes: &Classes, interface: ClassId, class: ClassId) -> bool
    ensures { result ≡ is_implementer (map (λ r. r.interfaces) classes.now.all.now) interface class }
{
    classes.interfaces(class).contains(&interface)
}

/// The nearest class of a chain that lists an interface itself.
fn nearest_implementer(classes: &Classes, interface: ClassId, chain: &[ClassId]) -> Option<ClassId>
    ensures { result ≡ find (is_implementer (map (λ r. r.interfaces) classes.now.all.now) interface) chain.now }
{
    for class in chain {
        if is_implementer(classes, interface, *class) {
            return Some(*class);
        }
    }
    None
}

impl<'p> MethodFamilies<'p> {
    /// The only error is out of memory.
    pub fn new(alloc: Global, classes: &'p Classes<'p>, identity: usize) -> Result<Self, NoMemory>
        ensures classes { IfOk result (λ methods. methods.classes.now ≡ classes.now) }
        ensures identity { IfOk result (λ methods. methods.identity ≡ identity) }
    {
        let slot_uses = uses_by_class(alloc, classes.all, identity)?;
        Ok(MethodFamilies {
            classes,
            identity,
            slot_uses,
        })
    }

    /// The slot use of the method of a class.
    fn slot_use(&self, class: ClassId) -> Option<SlotUse>
        ensures { result ≡ slot_use_at self.now.classes.now.all.now self.now.identity class }
    {
        entry_at(self.slot_uses.as_slice(), class)
    }

    // ---- slots along a chain

    /// The slot as seen from a class, where it is known as seen from its base.
    fn slot_from_base(&self, class: ClassId, inherited: Option<ClassId>) -> Option<ClassId>
        ensures { result ≡ slot_from self.now.classes.now.all.now self.now.identity class inherited }
    {
        match self.slot_use(class) {
            None => inherited,
            Some(slot_use) => slot_filled(class, inherited, slot_use),
        }
    }

    /// The slot that the nearest of these methods along a chain fills.
    fn slot_along(&self, chain: &[ClassId]) -> Option<ClassId>
        ensures { result ≡ slot_along self.now.classes.now.all.now self.now.identity chain.now }
    {
        let mut slot = None;
        for index in (0..chain.len()).rev() {
            slot = self.slot_from_base(chain[index], slot);
        }
        slot
    }

    /// The nearest class whose method fills a slot as seen from a class, where it is known as seen from its base. `fills` says
    /// whether the class's own method fills that very slot.
    fn implementation_over(
        &self,
        class: ClassId,
        fills: bool,
        below: Option<ClassId>,
    ) -> Option<ClassId>
        ensures { result ≡ implementation_from self.now.classes.now.all.now self.now.identity class fills below }
    {
        if !fills {
            return below;
        }
        match self.slot_use(class) {
            None => below,
            Some(_) => Some(class),
        }
    }

    /// The nearest class of a chain whose method fills a slot.
    fn implementation_along(&self, chain: &[ClassId], required: ClassId) -> Option<ClassId>
        ensures { result ≡ implementation_along self.now.classes.now.all.now self.now.identity required chain.now }
    {
        let mut slot = None;
        let mut implementation = None;
        for index in (0..chain.len()).rev() {
            slot = self.slot_from_base(chain[index], slot);
            implementation = self.implementation_over(
                chain[index],
                is_slot(&slot, required),
                implementation,
            );
        }
        implementation
    }

    /// The method that a class declares for its objects.
    fn own_method(&self, class: ClassId) -> Option<MethodId>
        ensures { result ≡ own_at self.now.classes.now.all.now self.now.identity class }
    {
        match self.classes.all.get(class.number()) {
            None => None,
            Some(resolved) => match own_index(resolved.methods.as_slice(), self.identity) {
                None => None,
                Some(index) => Some(MethodId { class, index }),
            },
        }
    }

    /// The method that fills along one chain the slot that is known along another.
    pub fn class_implementation(
        &self,
        chain: &[ClassId],
        introduced: &[ClassId],
    ) -> Option<MethodId>
        ensures { result ≡ filled_along self.now.classes.now.all.now self.now.identity chain.now introduced.now }
    {
        let slot = self.slot_along(introduced)?;
        let class = self.implementation_along(chain, slot)?;
        self.own_method(class)
    }

    // ---- interfaces

    /// Whether a class has a virtual one.
    fn has_virtual(&self, class: ClassId) -> bool
        ensures { result ≡ is_virtual_at self.now.classes.now.all.now self.now.identity class }
    {
        match self.slot_use(class) {
            None | Some(SlotUse::Plain) => false,
            Some(SlotUse::ReuseSlot | SlotUse::NewSlot) => true,
        }
    }

    /// The nearest class of a chain with a virtual one.
    fn nearest_virtual(&self, chain: &[ClassId]) -> Option<ClassId>
        ensures { result ≡ find (is_virtual_at self.now.classes.now.all.now self.now.identity) chain.now }
    {
        for class in chain {
            if self.has_virtual(*class) {
                return Some(*class);
            }
        }
        None
    }

    /// The method that fills the slot of the nearest virtual one, as seen from the nearest class of a chain that lists the interface.
    pub fn interface_implementation(
        &self,
        chain: &[ClassId],
        interface: ClassId,
    ) -> Option<MethodId>
        ensures { result ≡ listed_implementation self.now.classes.now.program.now self.now.classes.now.all.now self.now.identity chain.now interface }
    {
        let implementer = nearest_implementer(self.classes, interface, chain)?;
        let found = self.nearest_virtual(self.classes.chain(implementer))?;
        self.class_implementation(chain, self.classes.chain(found))
    }
}
