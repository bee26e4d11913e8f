//! Numbers that look random, and are the same in each run.

/// A linear congruential generator of 64 bits.
#[derive(Drop)]
pub struct Random {
    state: u64,
}

impl Random {
    /// The generator of a seed.
    pub fn new(seed: u64) -> Random {
        Random {
            state: seed.wrapping_mul(0x9e37_79b9_7f4a_7c15),
        }
    }

    /// The next number.
    fn next(&mut self) -> u32 {
        self.state = self
            .state
            .wrapping_mul(6_364_136_223_846_793_005)
            .wrapping_add(1_442_695_040_888_963_407);
        (self.state >> 32) as u32
    }

    /// A number below `bound`, or 0 where there is none.
    pub fn below(&mut self, bound: u32) -> u32 {
        let number = self.next();
        if bound == 0 { 0 } else { number % bound }
    }

    /// Whether something happens that does so `times` times in a hundred.
    pub fn happens(&mut self, times: u32) -> bool {
        self.below(100) < times
    }

    /// An index below `count`.
    pub fn index(&mut self, count: usize) -> usize {
        self.below(u32::try_from(count).unwrap_or(u32::MAX)) as usize
    }

    /// One of these; none where there is none.
    pub fn one_of<'a, T>(&mut self, items: &'a [T]) -> Option<&'a T> {
        items.get(self.index(items.len()))
    }
}
