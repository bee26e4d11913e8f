//! The version of `cilvm`.

/// The version of these sources, as `CHANGELOG.md` names it, and the logic of the kit that they are proved with: the end of the line that `rt version` prints.
pub(crate) const VERSION: &str = "0.1.0 (Rattle logic dac8208d650f15bf)";
