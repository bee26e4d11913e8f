//! Laws of `.run` files. Each function does nothing, and its contract is the law.

ghost use Rattle.std.specs.Prelude.{◌≡◌, ◌↔◌};
ghost use Rattle.run_files.specs.Differences.{HasNoDifference};
ghost use Rattle.run_files.specs.RunFiles.{IsRunFile, text_of};
ghost use Rattle.run_files.specs.declared.file.RunFile.{RunFile as AnyFile};

/// Two runs by equal numbers of workers differ in nothing exactly where their files say the same.
pub fn equal_files_do_not_differ()
    ensures { (one other : AnyFile) → one.workers ≡ other.workers → HasNoDifference one other ↔ (one ≡ other) }
{}

/// Files with the same text say the same.
pub fn one_text_says_one_thing()
    ensures { (one other : AnyFile) → IsRunFile one → IsRunFile other → text_of one ≡ text_of other → one ≡ other }
{}
