//! The calls that other programs are written against: each is called here by its name, with its arguments in
//! their order. `surface` prints the results for one small game. A call that is renamed or changed breaks this file.

use crate::streams::{Feed, Plan, Sink};
use anyhow::{Error, bail};
use chip_asm::Source;
use chip_bench::{Bench, Command, Counted, Edit, Question, Settings, read_command, serve, tape_of};
use chip_lang::{
    Addr, Body, Bytes, Coded, Instr, Line, Meter, Nibble, Reg, decode, defines, encode, eval,
    read_line, show, tokens, uses, word,
};
use chip_machine::{Machine, Profile, Touch};
use chip_replay::{Keys, LEAST_SPACING, Replay};
use std::alloc::Global;

/// Two instructions that show a point, and a jump to the second.
const GAME: &[u8] = b"A: LD V0, X + 1\nC: DRW V0, V0, 1\nJP C\nX = 4";

/// Returns the results of the calls, crate by crate.
pub(crate) fn surface(alloc: Global) -> Result<String, Error> {
    let mut text = language(alloc)?;
    text.push_str(&assembler(alloc)?)?;
    text.push_str(&machine(alloc)?)?;
    text.push_str(&keys(alloc)?)?;
    text.push_str(&replay(alloc)?)?;
    text.push_str(&session(alloc)?)?;
    text.push_str(&script(alloc)?)?;
    Ok(text)
}

fn language(alloc: Global) -> Result<String, Error> {
    let (Some(x), Some(n), Some(at)) = (Reg::new(15), Nibble::new(1), Addr::new(0xfff)) else {
        bail!("a number is out of range");
    };
    let (x, n, at) = (x.number(), n.number(), at.number());
    let clear = word(Instr::ClearScreen);
    let is_clear = matches!(decode(0x00e0), Some(Instr::ClearScreen));
    let shown = show(alloc, 0x00e0)?;
    let count = tokens(alloc, b"A: LD V0, X + 1")?.len();
    let names = Source::open(alloc, GAME)?;
    let mut meter = Meter::new();
    let line = read_line(alloc, &mut meter, b"A: LD V0, X + 1")?;
    let coded = encode(alloc, &mut meter, &line, &names)?;
    let bytes = Bytes::new(match &coded {
        Coded::Bytes(bytes) => Vec::from_slice(alloc, bytes.get())?,
        Coded::Faulty(_) => Vec::new(alloc),
    });
    let code = hex::encode(alloc, bytes.get())?;
    let definition = read_line(alloc, &mut meter, b"Y = X * 2")?;
    let value = match &definition {
        Line::Read {
            body: Body::Equ(expr),
            ..
        } => eval(expr, &names).ok(),
        _ => None,
    };
    let defined = String::from_utf8_lossy(alloc, defines(&line).unwrap_or(b""))?;
    let used = String::from_utf8_lossy(alloc, uses(&line, 0).unwrap_or(b""))?;
    let (parsed, encoded) = (meter.parsed, meter.encoded);
    Ok(format!(in alloc;
        "numbers {x} {n} {at}, word {clear}, decoded {is_clear}, shown {shown}\n{count} tokens, code {code}, value {value:?}, defines {defined}, uses {used}\n{parsed} parsed, {encoded} encoded\n"
    )?)
}

fn assembler(alloc: Global) -> Result<String, Error> {
    let empty = Source::new(alloc).lines();
    let mut source = Source::open(alloc, GAME)?;
    source.insert(alloc, 1, b"CLS")?;
    source.replace(alloc, 1, b"NOP")?;
    let fault = source.fault(1).map(|fault| fault.number());
    let faults = source.faults(alloc)?.len();
    source.delete(alloc, 1)?;
    let lines = source.lines();
    let image = hex::encode(alloc, source.image().unwrap_or(b""))?;
    let (value, line) = match source.symbol(b"C") {
        Some(symbol) => (symbol.value, symbol.line),
        None => (0, 0),
    };
    let symbols = source.symbols(alloc)?.len();
    let listing = source.listing(alloc)?.len();
    let parsed = source.work().parsed;
    Ok(format!(in alloc;
        "{empty} lines, then {lines}; fault {fault:?} of {faults}; image {image}\nC is {value} by line {line}, of {symbols} symbols; {listing} bytes of listing; {parsed} parsed\n"
    )?)
}

/// Returns a machine before its first step, with the image of the game.
fn start(alloc: Global) -> Result<Machine, Error> {
    let source = Source::open(alloc, GAME)?;
    Ok(Machine::start(
        alloc,
        source.image().unwrap_or(b""),
        &[0xa5],
        Profile::Schip,
    )?)
}

fn machine(alloc: Global) -> Result<String, Error> {
    let mut machine = start(alloc)?;
    let mut touch = Touch::new();
    machine.step(0, false, &mut touch);
    machine.step(0, true, &mut touch);
    let mut copy = machine.copy_of()?;
    copy.poke(0x300, 7);
    let Some(x) = Reg::new(0) else {
        bail!("a number is out of range");
    };
    let (register, index, pc) = (machine.reg(x), machine.index(), machine.pc());
    let (depth, frame, flag) = (machine.depth(), machine.frame(0), machine.flag(0));
    let (delay, sound, draws) = (machine.delay(), machine.sound(), machine.draws());
    let (lit, high, byte) = (machine.lit(10, 10), machine.high(), copy.byte_at(0x300));
    let has_stopped = machine.stopped().is_some();
    let (touched, has_first) = (touch.len(), touch.get(0).is_some());
    let added = touch.add(0x300);
    touch.clear();
    let left = touch.len();
    Ok(format!(in alloc;
        "v0 {register}, i {index}, pc {pc}, depth {depth}, frame {frame:?}, flag {flag:?}, dt {delay}, st {sound}, draws {draws}\nlit {lit}, high {high}, stopped {has_stopped}, byte {byte:?}\ntouched {touched}, first {has_first}, added {added}, left {left}\n"
    )?)
}

fn keys(alloc: Global) -> Result<String, Error> {
    let mut keys = Keys::new(alloc);
    keys.insert(2, 5, true)?;
    keys.insert(9, 5, true)?;
    keys.replace(9, 5, false)?;
    let (before, down, up) = (keys.held(1), keys.held(2), keys.held(9));
    keys.delete(2, 5)?;
    let then = keys.held(2);
    Ok(format!(in alloc; "held {before} {down} {up}, then {then}\n")?)
}

fn replay(alloc: Global) -> Result<String, Error> {
    let mut replay = Replay::new(alloc, start(alloc)?, 10, LEAST_SPACING)?;
    replay.insert_key(0, 1, true)?;
    replay.replace_key(0, 1, false)?;
    replay.delete_key(0, 1)?;
    let held = replay.keys().held(0);
    let pc = replay.at(3)?.pc();
    let (kept, reach, ran) = (replay.kept(), replay.reach(), replay.ran());
    Ok(format!(in alloc; "held {held}, pc {pc}, kept {kept}, reach {reach}, ran {ran}\n")?)
}

fn session(alloc: Global) -> Result<String, Error> {
    let tape = tape_of(alloc, 1)?;
    let settings = Settings::new(alloc, 10, &tape)?
        .with_profile(Profile::Schip)
        .with_spacing(LEAST_SPACING)?;
    let mut bench = Bench::open(alloc, GAME, settings)?;
    bench.apply(
        alloc,
        &Edit::Insert {
            line: 1,
            text: b"CLS",
        },
    )?;
    let mut answer = Vec::new(alloc);
    bench.ask(alloc, &Question::Registers { step: 2 }, &mut answer)?;
    let answer = String::from_utf8_lossy(alloc, &answer)?;
    let (parsed, reach, ran) = (bench.work().parsed, bench.reach(), bench.ran());
    let is_edit = matches!(
        read_command(b"del 1"),
        Ok(Command::Edit(Edit::Delete { line: 1 }))
    );
    let tape_bytes = tape.len();
    Ok(format!(in alloc;
        "{answer}{tape_bytes} bytes of tape, {parsed} parsed, reach {reach}, ran {ran}, edit {is_edit}\n"
    )?)
}

fn script(alloc: Global) -> Result<String, Error> {
    let settings = Settings::new(alloc, 10, &[0])?;
    let mut reader = Counted::new(Feed::new(b"image\n", &Plan::PLAIN));
    let mut writer = Counted::new(Sink::new(alloc, &Plan::PLAIN));
    serve(alloc, GAME, settings, &mut reader, &mut writer)?;
    let answer = String::from_utf8_lossy(alloc, &writer.get().taken)?;
    let failures = reader.failures() + writer.failures();
    Ok(format!(in alloc; "{answer}{failures} failures\n")?)
}
