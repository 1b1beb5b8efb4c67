//! Laws of the program.

ghost use Rattle.std.specs.Prelude.{◌≡◌};
ghost use Rattle.chip_host.specs.declared.limits.TheConstants.{KEY_FILE_BYTES, TEST_FILE_BYTES, TRACE_FILE_BYTES};

/// The values of the limits of the files that the program reads. The law of chip_session states the limits
/// of a session.
pub fn limits()
    ensures keys { KEY_FILE_BYTES ≡ 10000000 }
    ensures trace { TRACE_FILE_BYTES ≡ 250000000 }
    ensures test { TEST_FILE_BYTES ≡ 10000000 }
{}
