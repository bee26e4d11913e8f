//! A hash of a sequence of words.

/// An odd number without a pattern in its bits: 2 to the 64th, divided by the golden ratio.
const FACTOR: u64 = 0x9e37_79b9_7f4a_7c15;

/// The number of bits by which the hash is rotated after each word.
const ROTATION: u32 = 26;

/// A hash of the words that were added to it, in their order. The same words give the same digest. Other words may give it too, so equal digests prove
/// nothing.
#[derive(Clone, Copy)]
pub struct Digest {
    word: u64,
}

impl Digest {
    /// The digest of no words.
    pub fn new() -> Digest {
        Digest { word: FACTOR }
    }

    /// Adds a word.
    pub fn add(&mut self, word: u64) {
        let mixed = (self.word ^ word).wrapping_mul(FACTOR);
        self.word = mixed.rotate_left(ROTATION) ^ (mixed >> ROTATION);
    }

    /// The hash of all words that were added.
    pub fn word(self) -> u64 {
        self.word
    }
}
