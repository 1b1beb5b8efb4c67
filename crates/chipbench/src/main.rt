//! An assembler and replay debugger for SUPER-CHIP 1.1.
#![tactic(auto)]

use chip_bench::{Counted, HeldWriter, Host, System, program, refuse_arguments};
use std::fs::Files;
use std::io::IsTerminal;
use std::process::ExitCode;
use std::random::RandomSource;
use std::rt::Env;
use std::{env, io};

/// The number of bytes of stack that the program reserves at the start: enough for a search, which
/// needs the most, plus a margin.
const STACK_BYTES: usize = 393_216;

fn main(rt: HostRuntime) -> ExitCode {
    let alloc = rt.alloc();
    let mut errors = rt.stderr();
    if let Err(error) = reserve_stack(&rt) {
        return ExitCode::from(refuse_arguments(alloc, &error, &mut errors));
    }
    let arguments = match arguments(&rt) {
        Ok(arguments) => arguments,
        Err(error) => return ExitCode::from(refuse_arguments(alloc, &error, &mut errors)),
    };
    let output = match HeldWriter::with_capacity(alloc, held_bytes(&rt), rt.stdout()) {
        Ok(output) => output,
        Err(error) => return ExitCode::from(refuse_arguments(alloc, &error, &mut errors)),
    };
    let mut input = Counted::new(rt.stdin());
    let mut output = Counted::new(output);
    let host = Host {
        name_seed: name_seed(&rt),
        takes_color: rt.stdout().is_terminal() && wants_color(&rt),
        has_reader: rt.stderr().is_terminal(),
        is_typed: rt.stdin().is_terminal(),
    };
    let system = System {
        alloc,
        files: &rt,
        host,
    };
    let status = program(&system, &arguments, &mut input, &mut output, &mut errors);
    ExitCode::from(status)
}

// Reserves stack while the program can still report that it is out of memory. If the stack can't
// grow, as under a limit on the address space, a signal ends the program. The function therefore
// first allocates and frees the same amount of memory, so that there is room for the stack. The
// system writes to both areas, so neither is optimized away.
fn reserve_stack(rt: &(impl RandomSource + AllocGlobal)) -> io::Result<()> {
    let mut room = Vec::with_capacity(rt.alloc(), STACK_BYTES)?;
    room.push(0)?;
    let _ = rt.fill_bytes(&mut room);
    drop(room);
    touch_stack(rt);
    Ok(())
}

#[inline(never)]
fn touch_stack(rt: &impl RandomSource) {
    let mut stack = [0; STACK_BYTES];
    let _ = rt.fill_bytes(&mut stack[..1]);
}

// The number of bytes of output that may be buffered: 0 if someone may wait for an answer before
// sending the next command, as at a terminal or over a pipe. Nobody waits if the input is a file.
fn held_bytes(rt: &impl Files) -> usize {
    match rt.metadata("/dev/stdin") {
        Ok(input) if input.is_file() => 65536,
        _ => 0,
    }
}

// Returns a secret random seed, or 0 if the system provides no random bytes. No answer depends on the seed.
fn name_seed(rt: &impl RandomSource) -> u64 {
    let mut bytes = [0; 8];
    match rt.fill_bytes(&mut bytes) {
        Ok(()) => u64::from_le_bytes(bytes),
        Err(_) => 0,
    }
}

// Whether colours are allowed: a nonempty variable NO_COLOR forbids them.
fn wants_color(rt: &impl Env) -> bool {
    let mut first = [0];
    match rt.var("NO_COLOR", &mut first) {
        Ok(length) => length == 0,
        Err(env::FillError::NotPresent) => true,
        Err(env::FillError::TooLong) => false,
    }
}

// Returns the arguments, without the program's name.
fn arguments(rt: &(impl Env + AllocGlobal)) -> io::Result<Vec<String>> {
    let arguments = env::args(rt)?.skip(1).collect(rt.alloc())?;
    Ok(arguments)
}
