//! Object numbers as words.

ghost use Rattle.std.specs.Prelude.{◌≡◌, ◌+◌, ◌<◌, ◌≤◌, Some, IfSome, IfNone};
ghost use Rattle.word_flip.specs.Objects.{object_of};

/// The word that names this object, or null.
pub(crate) fn word_of(object: Option<u16>) -> u64
    ensures some { IfSome object (λ named. result ≡ named + 1) }
    ensures none { IfNone object (result ≡ 0) }
    ensures names { object_of result ≡ object }
{
    match object {
        None => 0,
        Some(named) => u64::from(named) + 1,
    }
}

/// The object that a word names, or null.
pub(crate) fn object_of(word: u64) -> Option<u16>
    requires { word ≤ 65536 }
    ensures { result ≡ object_of word }
{
    if word == 0 {
        return None;
    }
    Some((word - 1) as u16)
}
