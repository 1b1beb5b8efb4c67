//! Laws of a search.

ghost use Rattle.chip_explore.specs.OneOf.{AnswersOne, NeverOne};

/// An answer of a search for several properties implies an answer for each property alone.
pub fn one_of_several()
    ensures answers { AnswersOne }
    ensures any_speed { NeverOne }
{}
