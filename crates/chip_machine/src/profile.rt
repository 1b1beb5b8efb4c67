//! The profiles: named sets of quirks.

ghost use Rattle.std.specs.Prelude.{◌≡◌, ◌≢◌, ◌↔◌, None, Some, IfSome, IsSome, Contains, option_copied};
ghost use Rattle.chip_machine.specs.Profile.{profile_asked, profile_name, profile_named, profile_names, profile_with, quirks};

use crate::quirks::{IndexMove, LowSixteen, Quirks};

/// A named set of quirks, which decide what some instructions do.
#[derive(Clone, Copy, PartialEq, Eq)]
pub enum Profile {
    /// SUPER-CHIP 1.1, with this project's choices.
    Schip,
    /// The COSMAC VIP, with this project's choices.
    Vip,
    /// CHIP-48 on the HP48.
    Chip48,
    /// SUPER-CHIP 1.0 on the HP48.
    Schip10,
    /// The behaviour that SUPER-CHIP games expect of present-day emulators.
    SchipModern,
    /// Octo, without the instructions of XO-CHIP.
    Octo,
}

/// The name of `Schip`.
const SCHIP: &str = "schip";

/// The name of `Vip`.
const VIP: &str = "vip";

/// The name of `Chip48`.
const CHIP48: &str = "chip48";

/// The name of `Schip10`.
const SCHIP10: &str = "schip10";

/// The name of `SchipModern`.
const SCHIP_MODERN: &str = "schip-modern";

/// The name of `Octo`.
const OCTO: &str = "octo";

/// The names of the profiles.
pub const PROFILES: [&str; 6] = [SCHIP, VIP, CHIP48, SCHIP10, SCHIP_MODERN, OCTO];

impl Profile {
    /// The name of the profile.
    pub fn name(self) -> &'static str
        ensures name { result.now ≡ profile_name self }
        ensures listed { Contains profile_names result.now }
    {
        match self {
            Profile::Schip => SCHIP,
            Profile::Vip => VIP,
            Profile::Chip48 => CHIP48,
            Profile::Schip10 => SCHIP10,
            Profile::SchipModern => SCHIP_MODERN,
            Profile::Octo => OCTO,
        }
    }

    /// The quirks of the profile.
    pub fn quirks(self) -> Quirks
        ensures { result ≡ quirks self }
    {
        match self {
            Profile::Schip => Quirks::SCHIP,
            Profile::Vip => Quirks {
                shifts_second: true,
                index_move: IndexMove::PastLast,
                jumps_by_first: true,
                clears_flag: true,
                low_sixteen: LowSixteen::Nothing,
                has_super_instructions: false,
                ..Quirks::SCHIP
            },
            Profile::Chip48 => Quirks {
                index_move: IndexMove::AtLast,
                low_sixteen: LowSixteen::Nothing,
                has_super_instructions: false,
                ..Quirks::SCHIP
            },
            Profile::Schip10 => Quirks {
                index_move: IndexMove::AtLast,
                ..Quirks::SCHIP
            },
            Profile::SchipModern => Quirks {
                low_sixteen: LowSixteen::Wide,
                scrolls_whole: true,
                clears_at_size: true,
                ..Quirks::SCHIP
            },
            Profile::Octo => Quirks {
                shifts_second: true,
                index_move: IndexMove::PastLast,
                jumps_by_first: true,
                wraps: true,
                low_sixteen: LowSixteen::Wide,
                scrolls_whole: true,
                clears_at_size: true,
                ..Quirks::SCHIP
            },
        }
    }

    /// The profile with these quirks, or `None` if no profile has them.
    #[tactic(auto, using(crate::proofs::SameMachine::profile_none))]
    pub fn with_quirks(asked: Quirks) -> Option<Self>
        ensures value { result ≡ profile_with asked }
        ensures same { IfSome result (λ p. quirks p ≡ asked) }
        ensures none { result ≡ None → (p : Profile) → quirks p ≢ asked }
    {
        if asked == Profile::Schip.quirks() {
            Some(Profile::Schip)
        } else if asked == Profile::Vip.quirks() {
            Some(Profile::Vip)
        } else if asked == Profile::Chip48.quirks() {
            Some(Profile::Chip48)
        } else if asked == Profile::Schip10.quirks() {
            Some(Profile::Schip10)
        } else if asked == Profile::SchipModern.quirks() {
            Some(Profile::SchipModern)
        } else if asked == Profile::Octo.quirks() {
            Some(Profile::Octo)
        } else {
            None
        }
    }

    /// The profile with a name, or `None` if no profile has that name. If no name is given, the profile is
    /// SUPER-CHIP 1.1.
    pub fn asked(name: Option<&str>) -> Option<Self>
        ensures { result ≡ profile_asked (option_copied name.entry) }
    {
        match name {
            Some(name) => Profile::from_name(name),
            None => Some(Profile::Schip),
        }
    }

    /// The profile with a name, or `None` if no profile has that name.
    pub fn from_name(name: &str) -> Option<Self>
        ensures named { (p : Profile) → (result ≡ Some p) ↔ (name.now ≡ profile_name p) }
        ensures listed { IsSome result ↔ Contains profile_names name.now }
        ensures value { result ≡ profile_named name.now }
    {
        match name {
            SCHIP => Some(Profile::Schip),
            VIP => Some(Profile::Vip),
            CHIP48 => Some(Profile::Chip48),
            SCHIP10 => Some(Profile::Schip10),
            SCHIP_MODERN => Some(Profile::SchipModern),
            OCTO => Some(Profile::Octo),
            _ => None,
        }
    }
}
