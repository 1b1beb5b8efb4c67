//! `picture`: prints the screen after some steps, or writes it to files.
ghost use Rattle.std.specs.Prelude.{◌≡◌, Ok, if◌then◌else◌};
ghost use Rattle.chip_views.specs.declared.picture.Letters.TheVariants.{Blocks, Plain};
ghost use Rattle.chip_bench.specs.Doing.{Pictures, PicturesBy, WritesPicture};
ghost use Rattle.chip_bench.specs.Printing.{printed_picture};
ghost use Rattle.chip_host.specs.Endings.{IsSomeWritten};

use crate::opening::open_under;
use crate::output::picture_at;
use crate::stopping::tell_stop;
use chip_analysis::{tell_faults, tell_unopened};
use chip_arguments::PictureArguments;
use chip_host::{
    AskedRun, Ending, Failure, FileAccess, System, deliver, file_name, read_asked, refuse_source,
};
use chip_session::{Bench, Counted, PictureForm};
use chip_views::Letters;
use std::io::{Read, Write};
use std::mem;

// `picture`: writes the picture to the files that the arguments name, or prints it if they name none.
pub(crate) fn picture<'a, F: FileAccess, I: Read, O: Write, E: Write>(
    system: &System<'_, F>,
    arguments: &PictureArguments<'a>,
    input: &mut Counted<I>,
    output: &mut Counted<O>,
    errors: &mut E,
) -> Result<Ending, Failure<'a>>
    ensures { Pictures I.remaining O.contents input.old input.new output.old output.new
        arguments.now result }
{
    let AskedRun {
        source,
        keys,
        settings,
        ..
    } = read_asked(system, &arguments.run, input, errors)?;
    let opened = open_under(system.alloc, &source, &keys, settings)?;
    match opened {
        Ok(mut bench) => {
            let ended = show(system, arguments, &mut bench, output);
            tell_faults(system, arguments.run.source, bench.source(), errors);
            tell_stop(system, &arguments.run, &mut bench, errors);
            // The program ends here, and the system frees its memory all at once.
            mem::forget(bench);
            ended
        }
        Err(error) => {
            let ended = refuse_source(error, output);
            tell_unopened(system, arguments.run.source, error, errors);
            ended
        }
    }
}

// Returns the set of characters that represent the pixels.
fn letters_of(ascii: bool) -> Letters
    ensures { result ≡ (if ascii then Plain else Blocks) }
{
    if ascii {
        Letters::Plain
    } else {
        Letters::Blocks
    }
}

// Prints the picture, or writes it to the files that the arguments name.
fn show<'a, F: FileAccess, O: Write>(
    system: &System<'_, F>,
    arguments: &PictureArguments<'a>,
    bench: &mut Bench,
    output: &mut Counted<O>,
) -> Result<Ending, Failure<'a>>
    ensures { PicturesBy O.contents output.old output.new
        (printed_picture bench.old.session arguments.now.run.steps) arguments.now.ascii
        arguments.now.scale arguments.now.bitmap arguments.now.png result }
{
    let as_bitmap = PictureForm::ScaledBitmap(arguments.scale);
    let as_png = PictureForm::ScaledPng(arguments.scale);
    match (arguments.bitmap, arguments.png) {
        (None, None) => {
            let form = PictureForm::Text(letters_of(arguments.ascii));
            let picture = picture_at(system.alloc, bench, arguments.run.steps, form);
            deliver(picture, output)
        }
        (Some(name), None) => write(system, arguments, bench, as_bitmap, name, output),
        (None, Some(name)) => write(system, arguments, bench, as_png, name, output),
        (Some(bitmap), Some(png)) => {
            match write(system, arguments, bench, as_bitmap, bitmap, output) {
                Ok(Ending::Done) => write(system, arguments, bench, as_png, png, output),
                ended => ended,
            }
        }
    }
}

// Writes the picture to a file atomically. If there is no picture, prints the reason instead.
fn write<'a, F: FileAccess, O: Write>(
    system: &System<'_, F>,
    arguments: &PictureArguments<'a>,
    bench: &mut Bench,
    form: PictureForm,
    name: &'a str,
    output: &mut Counted<O>,
) -> Result<Ending, Failure<'a>>
    ensures did { WritesPicture O.contents output.old output.new
        (printed_picture bench.old.session arguments.now.run.steps form) name.entry result }
    ensures session { bench.new.session ≡ bench.old.session }
    ensures written { result ≡ Ok Ending.Done
        → IsSomeWritten (F.wrote system.now.files.now name.entry.now) }
{
    let picture = picture_at(system.alloc, bench, arguments.run.steps, form)?;
    match picture.ending {
        Ending::Done => {
            let source = Some(file_name(arguments.run.source));
            // If both files are named, the bitmap is written first.
            let bitmap = arguments
                .bitmap
                .filter(|_| matches!(form, PictureForm::ScaledPng(_)));
            let taken = [source, arguments.run.keys, bitmap];
            system.write(&taken, name, &picture.text)
        }
        _ => deliver(Ok(picture), output),
    }
}
