//! Facts about the session.

ghost use Rattle.std.specs.Prelude.{◌≡◌};
ghost use Rattle.chip_lang.specs.declared.limits.TheConstants.{IMAGE_BYTES, IMAGE_START, MEMORY_BYTES, NAME_BYTES, OPEN_PARENTHESES};
ghost use Rattle.chip_asm.specs.declared.limits.TheConstants.{LINE_BYTES, MOST_LINES};
ghost use Rattle.chip_machine.specs.declared.limits.TheConstants.{FLAGS, FRAMES, TAPE_BYTES};
ghost use Rattle.chip_replay.specs.declared.limits.TheConstants.{LAST_STEP, LEAST_SPACING, MOST_EVENTS, MOST_RATE, MOST_SPACING};
ghost use Rattle.chip_session.specs.declared.limits.TheConstants.{COMMAND_BYTES, SCRIPT_BYTES, SCRIPT_LINES};

/// The values of the limits that the definitions of a session refer to by name.
pub fn limits()
    ensures lines { MOST_LINES ≡ 4000 }
    ensures line { LINE_BYTES ≡ 200 }
    ensures name { NAME_BYTES ≡ 64 }
    ensures parentheses { OPEN_PARENTHESES ≡ 16 }
    ensures memory { MEMORY_BYTES ≡ 4096 }
    ensures start { IMAGE_START ≡ 512 }
    ensures image { IMAGE_BYTES ≡ 3584 }
    ensures tape { TAPE_BYTES ≡ 4096 }
    ensures frames { FRAMES ≡ 16 }
    ensures flags { FLAGS ≡ 8 }
    ensures rate { MOST_RATE ≡ 1000 }
    ensures step { LAST_STEP ≡ 1000000 }
    ensures events { MOST_EVENTS ≡ 10000 }
    ensures least_spacing { LEAST_SPACING ≡ 1000 }
    ensures most_spacing { MOST_SPACING ≡ 100000 }
    ensures command { COMMAND_BYTES ≡ 400 }
    ensures script { SCRIPT_BYTES ≡ 50000000 }
    ensures commands { SCRIPT_LINES ≡ 100000 }
{}
