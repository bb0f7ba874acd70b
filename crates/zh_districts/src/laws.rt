//! What follows from the definitions of this crate, for the crates above.

ghost use Rattle.std.specs.Prelude.{◌≡◌};
ghost use Rattle.zh_districts.specs.Canton.{Canton, IsCanton};
ghost use Rattle.zh_districts.specs.Spelling.{setup_spelling};

/// Set-ups with equal bytes are equal.
pub fn equal_bytes()
    ensures { (a b : Canton) → IsCanton a → IsCanton b → setup_spelling a ≡ setup_spelling b → a ≡ b }
{}
