//! Laws about verdicts.

ghost use Rattle.chip_verdicts.specs.Verdict.{AvoidsAll, AvoidsAtAll};

/// The law: if a target is never met, every search avoids it up to each step. That includes a search at a
/// rate with any tape, and a search at any speed.
pub fn never_met_is_never()
    ensures rate { AvoidsAll }
    ensures any_speed { AvoidsAtAll }
{}
