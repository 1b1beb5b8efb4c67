//! The names and numbers that the definitions of arguments take from constants of the code.

ghost use Rattle.std.specs.Prelude.{◌≡◌, Some, codes, false, true};
ghost use Rattle.chip_arguments.specs.declared.limits.TheConstants.{MOST_LINE, MOST_MEMORY, MOST_SCALE, MOST_SECONDS, MOST_STATES, USUAL_MEMORY, USUAL_STATES};
ghost use Rattle.chip_machine.specs.Profile.{profile_name};
ghost use Rattle.chip_machine.specs.QuirkList.{choice_named};

use chip_machine::{Choice, IndexMove, LowSixteen, Profile};

/// The names of the profiles.
pub fn profile_names()
    ensures schip { profile_name Profile.Schip ≡ codes "schip" }
    ensures vip { profile_name Profile.Vip ≡ codes "vip" }
    ensures chip48 { profile_name Profile.Chip48 ≡ codes "chip48" }
    ensures schip10 { profile_name Profile.Schip10 ≡ codes "schip10" }
    ensures schip_modern { profile_name Profile.SchipModern ≡ codes "schip-modern" }
    ensures octo { profile_name Profile.Octo ≡ codes "octo" }
{}

/// The names of the choices of quirks.
pub fn quirk_names()
    ensures shift_vx { choice_named (codes "shift=vx") ≡ Some (Choice.ShiftsSecond false) }
    ensures shift_vy { choice_named (codes "shift=vy") ≡ Some (Choice.ShiftsSecond true) }
    ensures memory_keep { choice_named (codes "memory=keep")
        ≡ Some (Choice.IndexMove IndexMove.Stays) }
    ensures memory_x { choice_named (codes "memory=x") ≡ Some (Choice.IndexMove IndexMove.AtLast) }
    ensures memory_past { choice_named (codes "memory=x+1")
        ≡ Some (Choice.IndexMove IndexMove.PastLast) }
    ensures jump_vx { choice_named (codes "jump=vx") ≡ Some (Choice.JumpsByFirst false) }
    ensures jump_v0 { choice_named (codes "jump=v0") ≡ Some (Choice.JumpsByFirst true) }
    ensures logic_keep { choice_named (codes "logic=keep") ≡ Some (Choice.ClearsFlag false) }
    ensures logic_clear { choice_named (codes "logic=clear") ≡ Some (Choice.ClearsFlag true) }
    ensures edges_clip { choice_named (codes "edges=clip") ≡ Some (Choice.Wraps false) }
    ensures edges_wrap { choice_named (codes "edges=wrap") ≡ Some (Choice.Wraps true) }
    ensures sixteen_none { choice_named (codes "dxy0=none")
        ≡ Some (Choice.LowSixteen LowSixteen.Nothing) }
    ensures sixteen_narrow { choice_named (codes "dxy0=8x16")
        ≡ Some (Choice.LowSixteen LowSixteen.Narrow) }
    ensures sixteen_wide { choice_named (codes "dxy0=16x16")
        ≡ Some (Choice.LowSixteen LowSixteen.Wide) }
    ensures scroll_stored { choice_named (codes "scroll=stored")
        ≡ Some (Choice.ScrollsWhole false) }
    ensures scroll_whole { choice_named (codes "scroll=whole") ≡ Some (Choice.ScrollsWhole true) }
    ensures size_keep { choice_named (codes "size=keep") ≡ Some (Choice.ClearsAtSize false) }
    ensures size_clear { choice_named (codes "size=clear") ≡ Some (Choice.ClearsAtSize true) }
    ensures overflow_keep { choice_named (codes "fx1e=keep") ≡ Some (Choice.FlagsOverflow false) }
    ensures overflow_flag { choice_named (codes "fx1e=flag") ≡ Some (Choice.FlagsOverflow true) }
    ensures with_super { choice_named (codes "instructions=super")
        ≡ Some (Choice.HasSuperInstructions true) }
    ensures without_super { choice_named (codes "instructions=base")
        ≡ Some (Choice.HasSuperInstructions false) }
{}

/// The bounds of numbers in arguments, and the bounds that a search has by default.
pub fn number_bounds()
    ensures usual_states { USUAL_STATES ≡ 1000000 }
    ensures usual_memory { USUAL_MEMORY ≡ 1000 }
    ensures states { MOST_STATES ≡ 100000000 }
    ensures memory { MOST_MEMORY ≡ 1000000 }
    ensures seconds { MOST_SECONDS ≡ 1000000 }
    ensures line { MOST_LINE ≡ 1000000 }
    ensures scale { MOST_SCALE ≡ 16 }
{}
