//! The possible results of a test, given several possible states.

ghost use Rattle.std.specs.Prelude.{◌&&◌, ◌||◌, Bool, not};
ghost use Rattle.chip_verdicts.specs.inner.Possible.{IsPossible};

/// The results that a test may have in several states.
#[derive(Clone, Copy)]
pub(crate) struct Possible {
    pub(crate) may_hold: bool,
    pub(crate) may_fail: bool,
}

/// No result is possible, because there is no state.
pub(crate) const NEITHER: Possible = Possible {
    may_hold: false,
    may_fail: false,
};

impl Possible {
    /// Returns the possible results of the negated test.
    pub(crate) fn negated(self) -> Possible
        ensures { (test : Bool) → IsPossible self test → IsPossible result (not test) }
    {
        Possible {
            may_hold: self.may_fail,
            may_fail: self.may_hold,
        }
    }

    /// Returns the possible results of the test that both tests hold.
    pub(crate) fn and(self, other: Possible) -> Possible
        ensures { (one two : Bool) → IsPossible self one → IsPossible other two
            → IsPossible result (one && two) }
    {
        Possible {
            may_hold: self.may_hold && other.may_hold,
            may_fail: self.may_fail || other.may_fail,
        }
    }

    /// Returns the possible results of the test that at least one of two tests holds.
    pub(crate) fn or(self, other: Possible) -> Possible
        ensures { (one two : Bool) → IsPossible self one → IsPossible other two
            → IsPossible result (one || two) }
    {
        Possible {
            may_hold: self.may_hold || other.may_hold,
            may_fail: self.may_fail && other.may_fail,
        }
    }

    /// Returns the possible results of a test in the states of `self` and of `other`.
    pub(crate) fn united(self, other: Possible) -> Possible
        ensures first { (test : Bool) → IsPossible self test → IsPossible result test }
        ensures second { (test : Bool) → IsPossible other test → IsPossible result test }
    {
        Possible {
            may_hold: self.may_hold || other.may_hold,
            may_fail: self.may_fail || other.may_fail,
        }
    }
}
