//! Laws about the data lines in source texts.

ghost use Rattle.std.specs.Prelude.{◌≡◌, ◌<◌, ◌++◌, ◌∷◌, [], ℕ, codes, pos, None};
ghost use Rattle.chip_lang.specs.Line.{reading_of, read, dw, db};
ghost use Rattle.chip_lang.specs.Show.{four_hex_digits, two_hex_digits};
ghost use Rattle.chip_lang.specs.Tree.{number};

/// The data line for a word or a byte is parsed as that word or byte.
pub fn data_lines()
    ensures word { (w : ℕ) → w < 65536
        → reading_of (codes "DW #" ++ four_hex_digits w) ≡ read None (dw (number (pos w) ∷ [])) }
    ensures byte { (b : ℕ) → b < 256
        → reading_of (codes "DB #" ++ two_hex_digits b) ≡ read None (db (number (pos b) ∷ [])) }
{}
