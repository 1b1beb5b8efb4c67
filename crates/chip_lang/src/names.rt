//! Tables of names.

ghost use Rattle.std.specs.Prelude.{◌≡◌};
ghost use Rattle.chip_lang.specs.Value.{Symbols, value_of_name};

/// A table of names. Contracts see it as a finite map from names in upper case to values of 32 bits
/// with a sign.
pub trait Names {
    /// The names and their values.
    ghost symbols: { Self → Symbols };

    /// The value of a name, which is in upper case; none if it has no value.
    fn value(&self, name: &[u8]) -> Option<i32>
        ensures { result ≡ value_of_name (symbols self.now) name.now };
}
