//! The trait that a machine implements so that a replay can run it.

ghost use Rattle.std.specs.Prelude.{◌≡◌, ℕ, ◌+◌, ◌^◌, ◌<◌, ◌≤◌, ◌↔◌, Bool, List, [], All, Contains, IfOk, IfSome, OnOk, OnErr, IsFalse, IsTrue, length, slice_index, slice_set, true};
ghost use Rattle.chip_machine.specs.Block.{block, IsBlockNoted};
ghost use Rattle.chip_replay.specs.Frame.{AgreeOff, IsFramed};
ghost use Rattle.chip_replay.specs.Limits.{memory_size};
ghost use Rattle.chip_replay.specs.Run.{IsStill};
ghost use Rattle.chip_machine.specs.State.{exchanged};
ghost use Rattle.chip_machine.specs.Touched.{is_among, touched};

use chip_machine::keys::HeldKeys;
use chip_machine::touch::Touch;
use std::alloc::AllocError;

/// A machine with `MEMORY_BYTES` bytes of memory, whose steps report the addresses that they touch.
pub trait Traced: Drop + Sized {
    /// The state after a step, given the mask of the keys that are down and whether the timers
    /// tick.
    ghost step_of: { Self → ℕ → Bool → Self };

    /// The addresses that the next step reads or writes.
    ghost touches: { Self → List ℕ };

    /// The bytes of the memory.
    ghost memory: { Self → List ℕ };

    /// The state with other bytes in its memory and nothing else changed.
    ghost with_memory: { Self → List ℕ → Self };

    /// A property that each state of a machine has.
    ghost is_proper: { Self → Type 0 };

    /// Executes one step with these keys down (key k at bit k); the timers tick if `tick` is true.
    /// Afterwards `touch` contains the addresses that the step read or wrote, in any order.
    fn step(&mut self, keys: u16, tick: bool, touch: &mut Touch)
        ensures state { self.new ≡ step_of self.old keys tick }
        ensures touched { (at : ℕ) → Contains touch.new at ↔ Contains (touches self.old) at }
        ensures proper { is_proper self.new };

    /// Executes the next `count` steps. The first has the number `from`. Step t uses the keys held at t,
    /// and the timers tick if t + 1 is a multiple of the rate. In `first_touch`, each address keeps the
    /// number of the first step that touched it.
    fn steps<K: HeldKeys>(
        &mut self,
        keys: &mut K,
        rate: u32,
        from: u32,
        count: u32,
        first_touch: &mut [u32],
    )
        requires rate { 0 < rate }
        requires table { length first_touch.old ≡ memory_size }
        requires in_range { from + count < 2 ^ 32 }
        requires ready { K.is_ready keys.old from }
        ensures state { self.new ≡ block step_of rate (K.held keys.old) from self.old count }
        ensures size { length first_touch.new ≡ memory_size }
        ensures noted { IsBlockNoted step_of rate (K.held keys.old) from self.old (touched touches)
            first_touch.old first_touch.new count }
        ensures keys { K.held keys.new ≡ K.held keys.old }
        ensures ready { K.is_ready keys.new (from + count) }
    {
        let mut touch = Touch::new();
        for made in 0..count {
            let number = from + made;
            let down = keys.at(number);
            self.step(down, (number + 1) % rate == 0, &mut touch);
            touch.note(first_touch, number);
        }
    }

    /// True only if each step leaves the state unchanged and touches nothing.
    fn is_still(&self) -> bool
        ensures still { IsTrue result → IsStill step_of self.now }
        ensures untouched { IsTrue result → touches self.now ≡ [] }
    {
        false
    }

    /// True only if each step with these keys down, or with any keys for `None`, leaves the state unchanged.
    /// Such a step must also touch only addresses whose first touch in the table is before `at`.
    fn stays(&self, keys: Option<u16>, first_touch: &[u32], at: u32) -> bool
        ensures still { IsTrue result → (down : ℕ) (tick : Bool) → IfSome keys (λ k. down ≡ k)
            → step_of self.now down tick ≡ self.now }
        ensures noted { IsTrue result → (address : ℕ) → is_among (touches self.now) address ≡ true
            → slice_index first_touch.now address < at }
    {
        self.is_still()
    }

    /// Changes the byte at an address.
    fn poke(&mut self, at: u16, byte: u8)
        requires { at < memory_size }
        ensures byte { self.new ≡ with_memory self.old (slice_set (memory self.old) at byte) }
        ensures proper { is_proper self.new };

    /// Writes the bytes of `new`, starting at an address, wherever they differ from those of `old`. All
    /// other bytes stay.
    fn exchange(&mut self, at: u16, old: &[u8], new: &[u8])
        requires alike { length old.now ≡ length new.now }
        requires in_memory { at + length new.now ≤ memory_size }
        ensures bytes { memory self.new ≡ exchanged (memory self.old) at old.now new.now }
        ensures others { self.new ≡ with_memory self.old (memory self.new) }
        ensures proper { is_proper self.new };

    /// Returns a second machine in the same state. Fails if memory runs out.
    fn copy_of(&self) -> Result<Self, AllocError>
        ensures same { IfOk result (λ copy. copy ≡ self.now) }
        ensures proper { is_proper self.now };

    /// Copies the state of another machine into this one. If memory runs out, fails and changes nothing.
    fn copy_from(&mut self, other: &Self) -> Result<(), AllocError>
        ensures ok { OnOk result (self.new ≡ other.now) }
        ensures err { OnErr result (self.new ≡ self.old) }
    {
        *self = other.copy_of()?;
        Ok(())
    }

    /// The memory is one part of the state.
    ghost memory_of_changed: { (s : Self) (m : List ℕ) → memory (with_memory s m) ≡ m };

    ghost changed_to_same: { (s : Self) → with_memory s (memory s) ≡ s };

    ghost changed_twice: { (s : Self) (m n : List ℕ)
        → with_memory (with_memory s m) n ≡ with_memory s n };

    /// The memory of a proper state has `MEMORY_BYTES` bytes. The memory has to satisfy nothing else.
    ghost proper_size: { (s : Self) → is_proper s → length (memory s) ≡ memory_size };

    ghost proper_changed: { (s : Self) (m : List ℕ) → is_proper s → length m ≡ memory_size
        → is_proper (with_memory s m) };

    /// A step preserves that a state is proper.
    ghost step_keeps: { (s : Self) (keys : ℕ) (tick : Bool) → is_proper s
        → is_proper (step_of s keys tick) };

    /// A step neither depends on the bytes that it doesn't touch nor changes them.
    ghost frame_law: { (set : ℕ → Bool) (keys : ℕ) (tick : Bool) (a b : Self) → is_proper a
        → is_proper b → AgreeOff memory with_memory set a b
        → All (λ at. IsFalse (set at)) (touches a)
        → IsFramed memory with_memory (λ s. step_of s keys tick) touches set a b };
}
