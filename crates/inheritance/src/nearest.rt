//! The nearest declaration of a key, found by following bases.

ghost use Rattle.std.specs.Prelude.{◌≡◌, ◌==◌, Some};
ghost use Rattle.std.specs.List.{position_from};
ghost use Rattle.inheritance.specs.ScopedTables.{pair_of, nearest_from};

use crate::changes::Declared;
use crate::forests::Forest;

fn is_key(key: usize, own: usize) -> bool
    ensures { result ≡ (key == own) }
{
    key == own
}

/// The first index of a key among those that a class declares.
fn index_of(keys: &[usize], key: usize) -> Option<usize>
    ensures { result ≡ position_from (λ k. key == k) 0 keys.now }
{
    for index in 0..keys.len() {
        if is_key(key, keys[index]) {
            return Some(index);
        }
    }
    None
}

impl Forest {
    /// The nearest class that declares a key, from a class on, with the index of the key, found by following the bases: what is
    /// found within the number of classes that are looked at. Takes time with these classes and what they declare.
    pub fn nearest_along(&self, first: usize, key: usize) -> Option<Declared>
        ensures { pair_of result ≡ nearest_from self.now key self.now.most (Some first) }
    {
        let mut next = Some(first);
        let mut left = self.most;
        while left > 0 {
            let Some(class) = next else {
                return None;
            };
            if let Some(index) = index_of(self.keys_of(class), key) {
                return Some(Declared { class, index });
            }
            next = self.base(class);
            left -= 1;
        }
        None
    }
}
