//! What a key and a value have to be able to do.

ghost use Rattle.std.specs.Prelude.{◌≡◌, Bool, Decides};

/// A key by which rows are found. Its own `==`, if it has one, may be another test.
pub trait Key: Copy {
    ghost same: { Self → Self → Bool };

    /// Whether two keys are the same.
    fn is(&self, other: &Self) -> bool
        ensures { result ≡ same self.now other.now };

    ghost decides: { (a b : Self) → Decides (same a b) (a ≡ b) };
}

/// What rows are cleared to. The type's own default, if it has one, may be another value.
pub trait Zero: Copy {
    ghost zero: { Self };

    /// The value with zeros in all fields.
    fn zeroed() -> Self
        ensures { result ≡ zero };
}
