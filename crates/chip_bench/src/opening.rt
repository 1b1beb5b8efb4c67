//! Opens a session on a source, under the key events of a file.
ghost use Rattle.std.specs.Prelude.{IfErr, IfOk};
ghost use Rattle.chip_bench.specs.inner.Reads.{IsSessionOf, IsUnmade};
ghost use Rattle.chip_host.specs.Printing.{IsUnopened};

use chip_asm::OpenError;
use chip_host::{Code, Failure, KeyFile};
use chip_session::{Bench, KeyFileError, Settings, insert_keys};
use std::alloc::Global;

/// Opens a session on a source and adds the key events of a file, or returns why the source doesn't open.
pub(crate) fn open_under<'a>(
    alloc: Global,
    source: &[u8],
    keys: &KeyFile<'a>,
    settings: Settings,
) -> Result<Result<Bench, OpenError>, Failure<'a>>
    ensures opened { IfOk result (λ opened. IfOk opened (λ bench.
        IsSessionOf settings source.now keys.now.bytes.items bench.session)) }
    ensures unopened { IfOk result (λ opened. IfErr opened (IsUnopened source.now)) }
    ensures err { IfErr result (IsUnmade settings source.now keys.now.bytes.items) }
{
    match Bench::open(alloc, source, settings) {
        Ok(mut bench) => match insert_keys(alloc, &mut bench, &keys.bytes) {
            Ok(()) => Ok(Ok(bench)),
            Err(KeyFileError::OutOfMemory) => Err(Failure::OutOfMemory),
            Err(KeyFileError::Line(number, code)) => {
                Err(Failure::BadKeys(keys.name, number, Code(code)))
            }
        },
        Err(error) => Ok(Err(error)),
    }
}
