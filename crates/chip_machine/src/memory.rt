//! Reads and writes of the bytes at I.

ghost use Rattle.std.specs.Prelude.{◌≡◌, ◌+◌, ◌<◌, ◌≤◌, ◌↔◌, [], length, take, drop, IfOk, IfErr, IsOk, IsErr, OnOk, OnErr};
ghost use Rattle.std.specs.List.{range_with_len};
ghost use Rattle.chip_machine.specs.State.{overwrite, exchanged};
ghost use Rattle.chip_machine.specs.Step.{span_at};

use crate::limits::{MEMORY_BYTES, SPRITE_BYTES};
use crate::stop::Stop;

/// Reads `count` bytes at an address. Stops the machine if they reach past the end of the memory.
pub(crate) fn load(memory: &[u8], at: u16, count: usize) -> Result<&[u8], Stop>
    requires size { length memory.now ≡ MEMORY_BYTES }
    requires few { count ≤ SPRITE_BYTES }
    ensures fits { IsOk result ↔ (at + count ≤ MEMORY_BYTES) }
    ensures ok { IfOk result (λ bytes. bytes.now ≡ take count (drop at memory.now)) }
    ensures err { IfErr result (λ why. why ≡ Stop.AddressOutOfRange) }
    ensures untouched { OnErr result (span_at at count ≡ []) }
{
    let from = at as usize;
    if from + count > MEMORY_BYTES {
        return Err(Stop::AddressOutOfRange);
    }
    Ok(&memory[from..from + count])
}

/// Writes bytes at an address.
#[tactic(auto, unfolding(crate::specs::State::overwrite))]
pub(crate) fn write_at(memory: &mut [u8], at: usize, bytes: &[u8])
    requires { at + length bytes.now ≤ length memory.old }
    ensures { memory.new ≡ overwrite memory.old at bytes.now }
{
    memory[at..at + bytes.len()].copy_from_slice(bytes);
}

/// Writes bytes at an address. Stops the machine if they reach past the end of the memory.
pub(crate) fn store(memory: &mut [u8], at: u16, bytes: &[u8]) -> Result<(), Stop>
    requires size { length memory.old ≡ MEMORY_BYTES }
    requires few { length bytes.now ≤ SPRITE_BYTES }
    ensures fits { IsOk result ↔ (at + length bytes.now ≤ MEMORY_BYTES) }
    ensures ok { OnOk result (memory.new ≡ overwrite memory.old at bytes.now) }
    ensures err { OnErr result (memory.new ≡ memory.old) }
    ensures why { IfErr result (λ why. why ≡ Stop.AddressOutOfRange) }
    ensures untouched { OnErr result (span_at at (length bytes.now) ≡ []) }
{
    let from = at as usize;
    if from + bytes.len() > MEMORY_BYTES {
        return Err(Stop::AddressOutOfRange);
    }
    write_at(memory, from, bytes);
    Ok(())
}

/// Writes the bytes of `new` over `bytes` wherever `new` differs from `old`, and leaves every other
/// byte as it was.
fn exchange_all(bytes: &mut [u8], old: &[u8], new: &[u8])
    requires old_alike { length old.now ≡ length bytes.old }
    requires new_alike { length new.now ≡ length bytes.old }
    ensures { bytes.new ≡ exchanged bytes.old 0 old.now new.now }
{
    let count = bytes.len();
    let (old, new) = (&old[..count], &new[..count]);
    for i in 0..count {
        let there = bytes[i];
        bytes[i] = if old[i] != new[i] { new[i] } else { there };
    }
}

/// Writes the bytes of `new`, starting at an address, wherever they differ from those of `old`.
pub(crate) fn exchange_at(memory: &mut [u8], at: usize, old: &[u8], new: &[u8])
    requires alike { length old.now ≡ length new.now }
    requires in_memory { at + length new.now ≤ length memory.old }
    ensures { memory.new ≡ exchanged memory.old at old.now new.now }
{
    exchange_all(&mut memory[at..at + new.len()], old, new);
}
