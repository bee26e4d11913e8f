//! The sizes of a stress run.

ghost use Rattle.std.specs.Prelude.{◌≡◌, ◌+◌, ◌*◌, ◌<◌, ◌≤◌};

/// The sizes of a stress run.
#[derive(Clone, Copy)]
pub struct Sizes {
    /// How many seats there are: 1 to 16.
    pub seats: u8,
    /// How many objects there are: 1 to 256.
    pub objects: u16,
    /// How many slots each object has: 1 to 16.
    pub slots: u8,
    /// How often each seat stores to each of its slots: at most 10,000 times.
    pub rounds: u16,
    ghost some_seats: { (0 < seats) × (seats ≤ 16) },
    ghost some_objects: { (0 < objects) × (objects ≤ 256) },
    ghost some_slots: { (0 < slots) × (slots ≤ 16) },
    ghost few_rounds: { rounds ≤ 10000 },
}

/// A slot of an object.
#[derive(Clone, Copy)]
pub(crate) struct Slot {
    pub object: u16,
    pub slot: u8,
}

impl Sizes {
    ghost use Rattle.flip_stress.specs.Stress.{slot_count};

    /// These sizes, each of which has to be in its range.
    pub fn new(seats: u8, objects: u16, slots: u8, rounds: u16) -> Sizes
        requires seats { (0 < seats) × (seats ≤ 16) }
        requires objects { (0 < objects) × (objects ≤ 256) }
        requires slots { (0 < slots) × (slots ≤ 16) }
        requires rounds { rounds ≤ 10000 }
        ensures { (result.seats ≡ seats) × (result.objects ≡ objects) × (result.slots ≡ slots) × (result.rounds ≡ rounds) }
    {
        Sizes {
            seats,
            objects,
            slots,
            rounds,
        }
    }

    /// How many slots all objects have together.
    pub(crate) fn indices(self) -> usize
        ensures { result ≡ slot_count self }
    {
        usize::from(self.objects) * usize::from(self.slots)
    }

    /// The slot at an index.
    pub(crate) fn slot_at(self, index: usize) -> Slot
        requires { index < slot_count self }
        ensures within { (result.object < self.objects) × (result.slot < self.slots) }
        ensures index { result.object * self.slots + result.slot ≡ index }
    {
        let slots = usize::from(self.slots);
        Slot {
            object: (index / slots) as u16,
            slot: (index % slots) as u8,
        }
    }
}
