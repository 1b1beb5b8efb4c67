//! Laws of whole sources.
ghost use Rattle.std.specs.Prelude.{ℕ, ◌≡◌, ◌+◌, ◌≤◌, List, length, map, filter, reverse, Some, slice_get, Decides};
ghost use Rattle.std.specs.List.{IsDistinct};
ghost use Rattle.std.specs.Str.{bytes_eq};
ghost use Rattle.chip_lang.specs.Line.{Reading, reading_of};
ghost use Rattle.chip_asm.specs.Layout.{Placed};
ghost use Rattle.chip_asm.specs.computed.Walk.{placed};
ghost use Rattle.chip_asm.specs.Places.{ArePlaced, IsFaultOf, IsImage, IsUnclosed, names_given};
ghost use Rattle.chip_asm.specs.Program.{symbols_of, fault_at, image_of, covers, is_unclosed};

/// No name occurs twice among the names that a source defines.
pub fn names_differ()
    ensures { (texts : List (List ℕ))
        → IsDistinct bytes_eq (map (λ symbol. symbol.0) (symbols_of texts)) }
{}

/// At most one line of a source covers an address.
pub fn one_line_covers()
    ensures { (texts : List (List ℕ)) (address : ℕ)
        → length (filter (covers address) (placed (map reading_of texts))) ≤ 1 }
{}

/// The facts about lines that `placed` computes line by line satisfy the relation `ArePlaced`,
/// which states them by place.
pub fn lines_are_placed()
    ensures { (lines : List Reading) → ArePlaced lines (reverse (placed lines)) }
{}

/// No other facts satisfy `ArePlaced`.
pub fn only_these_are_placed()
    ensures { (lines : List Reading) (all : List Placed) → ArePlaced lines all
        → all ≡ reverse (placed lines) }
{}

/// The IF lines without ENDIF are those that `IsUnclosed` states by place.
pub fn unclosed_by_place()
    ensures { (lines : List Reading) (i : ℕ) (p : Placed)
        → slice_get (reverse (placed lines)) i ≡ Some p
        → Decides (is_unclosed (placed lines) p) (IsUnclosed (reverse (placed lines)) i p) }
{}

/// The names that a source defines are the names that its lines define, stated by place.
pub fn names_by_place()
    ensures { (texts : List (List ℕ)) (all : List Placed) → ArePlaced (map reading_of texts) all
        → symbols_of texts ≡ names_given all }
{}

/// The image of a source is the one that `IsImage` states by place.
pub fn image_by_place()
    ensures { (texts : List (List ℕ)) (bytes : List ℕ) (all : List Placed)
        → image_of texts ≡ Some bytes → ArePlaced (map reading_of texts) all → IsImage all bytes }
{}

/// The fault of a line of a source is the one that `IsFaultOf` states by place.
pub fn fault_by_place()
    ensures { (texts : List (List ℕ)) (all : List Placed) (i : ℕ) (p : Placed)
        → ArePlaced (map reading_of texts) all → slice_get all i ≡ Some p
        → IsFaultOf all i p (fault_at texts (i + 1)) }
{}
