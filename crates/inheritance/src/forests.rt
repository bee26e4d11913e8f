//! What is given: classes by numbers.

ghost use Rattle.std.specs.Prelude.{◌≡◌, ◌↔◌, IsTrue, slice_index_or, map, [], None};
ghost use Rattle.inheritance.specs.Lines.{base_in, Ends};

/// Classes by numbers. Where there is no class of a number, it has no base and declares nothing.
#[derive(Drop)]
pub struct Forest {
    /// The base of each class.
    pub bases: Vec<Option<usize>>,
    /// The keys that each class declares, by their indices.
    pub declared: Vec<Vec<usize>>,
    /// How many keys there are. They are the numbers below.
    pub keys: usize,
    /// With how many classes at most, from one on through its bases, a class is looked at.
    pub most: usize,
}

impl Forest {
    pub(crate) fn base(&self, class: usize) -> Option<usize>
        ensures { result ≡ base_in self.now.bases.items class }
    {
        match self.bases.get(class) {
            None => None,
            Some(base) => *base,
        }
    }

    pub(crate) fn keys_of(&self, class: usize) -> &[usize]
        ensures { result.now ≡ slice_index_or (map (λ v. v.items) self.now.declared.items) class [] }
    {
        match self.declared.get(class) {
            None => &[],
            Some(keys) => keys.as_slice(),
        }
    }

    /// Whether the bases of a class end, found by following them.
    pub(crate) fn ends_along(&self, first: usize) -> bool
        ensures { IsTrue result ↔ Ends self.now.bases.items self.now.most first }
    {
        let mut next = Some(first);
        let mut left = self.most;
        while left > 0 {
            let Some(class) = next else {
                return true;
            };
            next = self.base(class);
            left -= 1;
        }
        next.is_none()
    }
}
