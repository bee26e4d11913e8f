//! Look-ups in tables whose rows have the numbers of classes.

ghost use Rattle.std.specs.Prelude.{◌≡◌, [], None, false, map, slice_get, unwrap_or};

use name_tables::ids::ClassId;

/// The row of a class; an empty one where there is none.
pub fn row_at<T>(rows: &[Vec<T>], class: ClassId) -> &[T]
    ensures { result.now ≡ unwrap_or (slice_get (map (λ row. row.items) rows.now) class) [] }
{
    match rows.get(class.number()) {
        None => &[],
        Some(row) => row.as_slice(),
    }
}

/// The flag of a class.
pub fn flag_at(flags: &[bool], class: ClassId) -> bool
    ensures { result ≡ unwrap_or (slice_get flags.now class) false }
{
    match flags.get(class.number()) {
        None => false,
        Some(flag) => *flag,
    }
}

/// The entry of a class.
pub fn entry_at<T: Copy>(entries: &[Option<T>], class: ClassId) -> Option<T>
    ensures { result ≡ unwrap_or (slice_get entries.now class) None }
{
    match entries.get(class.number()) {
        None => None,
        Some(entry) => *entry,
    }
}
