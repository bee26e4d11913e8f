//! Addresses of objects, and the number that represents one in a word.

ghost use Rattle.std.specs.Prelude.{◌≡◌, ◌-◌, ◌<◌, ◌≤◌, ◌==◌};

/// The number of all addresses: one for each number of 32 bits.
pub const ADDRESSES: u64 = 4_294_967_296;

/// The number of the first literal's address. The addresses of a heap's objects have numbers below it.
pub const FIRST_LITERAL: u32 = 2_147_483_648;

/// Where an object is, or null. The objects of a heap have addresses, and so have the literals of a program. During a collection an object may
/// have two; a comparison of references determines whether two addresses are of one object, and nothing else can be done with them.
#[derive(Clone, Copy, PartialEq, Eq)]
pub struct Addr {
    pub(crate) number: u32,
}

impl Addr {
    ghost use Rattle.object_memory.specs.Cells.{null, literal, literal_number};

    /// The null reference (ECMA-335 III.4.17).
    pub fn null() -> Addr
        ensures { result ≡ null }
    {
        Addr { number: 0 }
    }

    /// The address of the literal with this number (ECMA-335 III.4.16). It is never that of an object of a heap.
    pub fn literal(number: u32) -> Addr
        requires { number < FIRST_LITERAL }
        ensures { result ≡ literal number }
    {
        Addr {
            number: FIRST_LITERAL + number,
        }
    }

    /// The number of the literal that lies here. None at null and at an object of a heap.
    pub fn literal_number(self) -> Option<u32>
        ensures { result ≡ literal_number self }
    {
        if self.number < FIRST_LITERAL {
            return None;
        }
        Some(self.number - FIRST_LITERAL)
    }

    /// Whether it is the null reference.
    pub fn is_null(self) -> bool
        ensures { result ≡ (self.number == 0) }
    {
        self.number == 0
    }

    /// Where the object's words begin in its block, whose first object has the address `start`.
    pub(crate) fn offset(self, start: u32) -> usize
        requires { start ≤ self.number }
        ensures { result ≡ self.number - start }
    {
        (self.number - start) as usize
    }
}
