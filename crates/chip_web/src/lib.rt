//! A session for a host that isn't written in Rattle: open, answer a line, read the answer, close.
#![tactic(auto)]

ghost use Rattle.std.specs.Prelude.{◌≡◌, ◌≢◌, ◌⊎◌, ◌≤◌, ◌-◌, None, Some, IfOk, IfErr, IfSome, [], is_some, true, min, length, take, drop};
ghost use Rattle.chip_session.specs.Session.{session_of};
ghost use Rattle.chip_web.specs.Answering.{Answers, bytes_read};
ghost use Rattle.chip_web.specs.Opening.{asked_settings, open_status};
ghost use Rattle.chip_web.specs.declared.status.TheConstants.{DONE, NO_MEMORY};

use std::alloc::Global;

mod asked;
mod handle;
mod opened;
mod owner;
mod raw_box;
mod status;

use asked::AskedSettings;
use handle::Handle;
use opened::Opened;
use status::{DONE, NO_MEMORY, NO_SESSION};

/// Opens a session on a source and replaces the session of the handle, if there is one. `list`
/// contains the quirks in which the machine differs from the profile, in the format of `--quirks`, or
/// is empty. Returns `DONE`, or the number of the fault. After a fault, the handle has no session.
/// Until the first line is executed, the last answer is empty.
#[unsafe(no_mangle)]
pub extern "C" fn session_open(
    alloc: Global,
    handle: &mut Handle,
    source: &[u8],
    tape: &[u8],
    list: &[u8],
    asked: &AskedSettings,
) -> u32
    ensures status { (result ≡ NO_MEMORY)
        ⊎ (result ≡ open_status asked.now tape.now list.now source.now) }
    ensures opened { result ≡ DONE → is_some handle.new.owner.session ≡ true }
    ensures session { IfSome handle.new.owner.session (λ opened. opened.bench.session
        ≡ session_of (asked_settings asked.now tape.now list.now) source.now) }
    ensures unanswered { IfSome handle.new.owner.session (λ opened. opened.answer.items ≡ []) }
    ensures refused { result ≢ DONE → handle.new.owner.session ≡ None }
{
    drop(handle.take(alloc));
    match boxed(alloc, source, tape, list, asked) {
        Ok(opened) => {
            *handle = Handle::of(opened);
            DONE
        }
        Err(status) => status,
    }
}

// Opens the requested session and returns it on the heap, or returns the number of the fault.
fn boxed(
    alloc: Global,
    source: &[u8],
    tape: &[u8],
    list: &[u8],
    asked: &AskedSettings,
) -> Result<Box<Opened>, u32>
    ensures ok { IfOk result (λ opened.
        (open_status asked.now tape.now list.now source.now ≡ DONE)
        × (opened.value.bench.session
        ≡ session_of (asked_settings asked.now tape.now list.now) source.now)) }
    ensures unanswered { IfOk result (λ opened. opened.value.answer.items ≡ []) }
    ensures err { IfErr result (λ status. (status ≢ DONE) × ((status ≡ NO_MEMORY)
        ⊎ (status ≡ open_status asked.now tape.now list.now source.now))) }
{
    let settings = asked.with_tape(alloc, tape, list)?;
    let opened = match Opened::open(alloc, source, settings) {
        Ok(opened) => opened,
        Err(error) => return Err(status::of_source(error)),
    };
    match Box::new(alloc, opened) {
        Ok(opened) => Ok(opened),
        Err(_) => Err(NO_MEMORY),
    }
}

/// Executes one line of a script, given without its newline. Returns `DONE` if `session_read` can read
/// the answer now, `NO_SESSION` if the handle has no session, or `NO_MEMORY` if memory ran out. After
/// `NO_MEMORY`, the session is either in the state before the line or in the state after the line.
#[unsafe(no_mangle)]
pub extern "C" fn session_answer(alloc: Global, handle: &mut Handle, line: &[u8]) -> u32
    ensures { Answers result handle.old.owner.session line.now handle.new.owner.session }
{
    let Some(mut opened) = handle.take(alloc) else {
        return NO_SESSION;
    };
    let status = match opened.carry_out(alloc, line) {
        Ok(()) => DONE,
        Err(_) => NO_MEMORY,
    };
    *handle = Handle::of(opened);
    status
}

/// Copies the bytes of the last answer from index `from` on, as many as `room` can hold. Returns the
/// number of bytes in the answer from that index on, or 0 if there is no session.
#[unsafe(no_mangle)]
pub extern "C" fn session_read(
    alloc: Global,
    handle: &mut Handle,
    from: usize,
    room: &mut [u8],
) -> usize
    ensures session { handle.new.owner.session ≡ handle.old.owner.session }
    ensures none { handle.old.owner.session ≡ None → result ≡ 0 }
    ensures left { IfSome handle.old.owner.session (λ opened.
        result ≡ length opened.answer.items - from) }
    ensures bytes { IfSome handle.old.owner.session (λ opened.
        take result room.new ≡ bytes_read opened.answer.items from (length room.old)) }
{
    let Some(opened) = handle.take(alloc) else {
        return 0;
    };
    let left = copy_from(&opened.answer, from, room);
    *handle = Handle::of(opened);
    left
}

fn copy_from(bytes: &[u8], from: usize, room: &mut [u8]) -> usize
    ensures left { result ≡ length bytes.now - from }
    ensures bytes { take result room.new ≡ bytes_read bytes.now from (length room.old) }
{
    if from >= bytes.len() {
        return 0;
    }
    let rest = &bytes[from..];
    let count = rest.len().min(room.len());
    room[..count].copy_from_slice(&rest[..count]);
    rest.len()
}

/// Closes the session of the handle, if there is one, and leaves the handle without a session.
#[unsafe(no_mangle)]
pub extern "C" fn session_close(alloc: Global, handle: &mut Handle)
    ensures { handle.new.owner.session ≡ None }
{
    drop(handle.take(alloc));
}
