//! The ids of classes, fields and methods. The built-in classes are the first ones, and those of the source follow (this profile).

ghost use Rattle.std.specs.Prelude.{◌≡◌};

use std::marker::Model;

/// The number of a class among all classes: the built-in ones, then those of the source, in order.
#[derive(Clone, Copy, PartialEq, Eq)]
pub struct ClassId {
    number: usize,
}

/// Contracts see the number.
impl Model for ClassId {
    ghost use Rattle.std.specs.Prelude.{ℕ};

    ghost Value = { ℕ };

    ghost view = { λ c. c.number };

    ghost inverse = { λ n. record { number = n } };
}

/// Where a field is: its class, and its index among the fields of that class.
#[derive(Clone, Copy, PartialEq, Eq)]
pub struct FieldId {
    pub class: ClassId,
    pub index: usize,
}

/// Where a method is: its class, and its index among the methods of that class.
#[derive(Clone, Copy, PartialEq, Eq)]
pub struct MethodId {
    pub class: ClassId,
    pub index: usize,
}

/// The number of `System.Object`.
pub const OBJECT_NUMBER: usize = 0;

/// The number of `System.String`, whose objects are the literals.
pub const STRING_NUMBER: usize = 1;

/// The number of `System.Console`.
pub const CONSOLE_NUMBER: usize = 2;

/// The number of `System.Threading.Monitor`.
pub const MONITOR_NUMBER: usize = 3;

/// The number of `Cilvm.Thread`.
pub const THREAD_NUMBER: usize = 4;

/// How many built-in classes there are: the number of the first class of the source.
pub const FIRST_OF_SOURCE: usize = 5;

/// `System.Object`
pub const OBJECT: ClassId = ClassId {
    number: OBJECT_NUMBER,
};

/// `System.String`, whose objects are the literals.
pub const STRING: ClassId = ClassId {
    number: STRING_NUMBER,
};

/// `System.Console`
pub const CONSOLE: ClassId = ClassId {
    number: CONSOLE_NUMBER,
};

/// `System.Threading.Monitor`
pub const MONITOR: ClassId = ClassId {
    number: MONITOR_NUMBER,
};

/// `Cilvm.Thread`
pub const THREAD: ClassId = ClassId {
    number: THREAD_NUMBER,
};

impl ClassId {
    /// The class with this number.
    pub fn new(number: usize) -> ClassId
        ensures { result ≡ number }
    {
        ClassId { number }
    }

    /// Its number.
    pub fn number(self) -> usize
        ensures { result ≡ self }
    {
        self.number
    }
}
