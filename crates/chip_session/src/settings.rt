//! The settings of a session.
ghost use Rattle.std.specs.Prelude.{◌≡◌, ◌<◌, ◌≤◌, length, ◌⊎◌, None, Some, IfOk, IfErr, MatchOption};
ghost use Rattle.chip_machine.specs.Profile as machine;
ghost use Rattle.chip_replay.specs.Limits.{IsSpacing};
ghost use Rattle.chip_session.specs.Settings.{settings_of, settings_fault, spacing_fault};
ghost use Rattle.chip_session.specs.declared.settings.SetError.TheVariants.{OutOfMemory};

use chip_asm::NameHasher;
use chip_machine::limits::TAPE_BYTES;
use chip_machine::{Profile, Quirks};
use chip_replay::{LEAST_SPACING, MOST_RATE, MOST_SPACING};
use std::alloc::{AllocError, Global};
use std::marker::Model;
use thiserror::Error;

/// The reason why settings aren't allowed.
#[derive(Clone, Copy, Debug, PartialEq, Eq, Error)]
pub enum SetError {
    /// G1: the rate is not between 1 and `MOST_RATE`.
    #[error("rate not 1 to {most}", most = MOST_RATE)]
    RateOutOfRange,
    /// G2: the tape is empty or longer than `TAPE_BYTES` bytes.
    #[error("tape not 1 to {most} bytes", most = TAPE_BYTES)]
    TapeLength,
    /// G3: memory for the tape ran out.
    #[error("out of memory")]
    OutOfMemory,
    /// G4: the spacing of the checkpoints is not between `LEAST_SPACING` and `MOST_SPACING`.
    #[error("spacing not {least} to {most}", least = LEAST_SPACING, most = MOST_SPACING)]
    SpacingOutOfRange,
}

impl From<AllocError> for SetError {
    ghost from_gives = { λ _ e. e ≡ OutOfMemory };

    fn from(_e: AllocError) -> SetError {
        SetError::OutOfMemory
    }
}

/// The settings of a session: the number of steps per tick of the timers, the tape of random bytes,
/// and the quirks of the machine. Two further settings never affect an answer: the number of steps
/// between two checkpoints of the run, and the seed that names are hashed with.
#[derive(Drop)]
pub struct Settings {
    rate: u32,
    tape: Vec<u8>,
    quirks: Quirks,
    spacing: u32,
    names: NameHasher,
}

impl Model for Settings {
    ghost use Rattle.chip_session.specs.Settings.{SessionSettings};

    ghost Value = { SessionSettings };

    ghost view = { λ s.
        record { rate = s.rate; tape = s.tape.items; quirks = s.quirks; spacing = s.spacing } };

    ghost use Rattle.chip_replay.specs.Limits.{IsSpacing};
    ghost use Rattle.chip_machine.specs.Start.{IsTape};
    ghost use Rattle.chip_session.specs.Settings.{IsRate};

    ghost invariant = { λ s. IsRate s.rate × IsTape s.tape.items × IsSpacing s.spacing };
}

impl Settings {
    /// Returns settings with `rate` steps per tick, 1 to `MOST_RATE`, and a tape of 1 to `TAPE_BYTES`
    /// bytes. The quirks are those of a SUPER-CHIP 1.1, and the spacing is the smallest one.
    ///
    /// # Errors
    ///
    /// The first error that applies: a rate out of range, a tape that is empty or too long, or out
    /// of memory.
    pub fn new(alloc: Global, rate: u32, tape: &[u8]) -> Result<Settings, SetError>
        ensures ok { IfOk result (λ settings. (settings_fault rate tape.now ≡ None)
            × (settings ≡ settings_of rate tape.now)) }
        ensures err { IfErr result (λ e. (settings_fault rate tape.now ≡ Some e)
            ⊎ ((e ≡ SetError.OutOfMemory) × (settings_fault rate tape.now ≡ None))) }
    {
        if let Some(fault) = fault_of(rate, tape) {
            return Err(fault);
        }
        let tape = Vec::from_slice(alloc, tape)?;
        Ok(Settings {
            rate,
            tape,
            quirks: Profile::Schip.quirks(),
            spacing: LEAST_SPACING,
            names: NameHasher::new(0),
        })
    }

    /// Returns these settings with the quirks of a profile.
    pub fn with_profile(self, profile: Profile) -> Settings
        ensures { result ≡ record self { quirks = machine.quirks profile } }
    {
        self.with_quirks(profile.quirks())
    }

    /// Returns these settings with the given quirks.
    pub fn with_quirks(self, quirks: Quirks) -> Settings
        ensures { result ≡ record self { quirks = quirks } }
    {
        Settings { quirks, ..self }
    }

    /// Returns these settings with `spacing` steps between two checkpoints, `LEAST_SPACING` to `MOST_SPACING`.
    /// A smaller spacing makes questions after an edit cheaper, and a larger one takes less memory.
    ///
    /// # Errors
    ///
    /// The spacing is out of range; the settings are then dropped.
    pub fn with_spacing(self, spacing: u32) -> Result<Settings, SetError>
        ensures { MatchOption (spacing_fault spacing)
            (result ≡ Ok (record self { spacing = spacing }))
            (λ fault. result ≡ Err fault) }
    {
        if spacing < LEAST_SPACING || spacing > MOST_SPACING {
            return Err(SetError::SpacingOutOfRange);
        }
        Ok(Settings { spacing, ..self })
    }

    /// Returns these settings with names hashed from a seed. If each start of the program uses a
    /// random seed, nobody can choose names in a source that make edits slow.
    pub fn with_name_seed(self, seed: u64) -> Settings
        ensures { result ≡ self }
    {
        Settings {
            names: NameHasher::new(seed),
            ..self
        }
    }

    /// The hasher of names.
    pub(crate) fn names(&self) -> NameHasher {
        self.names
    }

    /// The number of steps per tick.
    pub fn rate(&self) -> u32
        ensures value { result ≡ self.now.rate }
        ensures above { 0 < result }
        ensures most { result ≤ MOST_RATE }
    {
        self.rate
    }

    /// The tape: the bytes that the machine uses as random bytes.
    pub fn tape(&self) -> &[u8]
        ensures value { result.now ≡ self.now.tape }
        ensures some { 0 < length result.now }
        ensures most { length result.now ≤ TAPE_BYTES }
    {
        &self.tape
    }

    /// The quirks of the machine.
    pub fn quirks(&self) -> Quirks
        ensures { result ≡ self.now.quirks }
    {
        self.quirks
    }

    /// The number of steps between two checkpoints.
    pub(crate) fn spacing(&self) -> u32
        ensures value { result ≡ self.now.spacing }
        ensures in_range { IsSpacing result }
    {
        self.spacing
    }
}

// Returns why these settings aren't allowed, apart from a lack of memory.
fn fault_of(rate: u32, tape: &[u8]) -> Option<SetError>
    ensures { result ≡ settings_fault rate tape.now }
{
    if rate < 1 || rate > MOST_RATE {
        return Some(SetError::RateOutOfRange);
    }
    if tape.is_empty() || tape.len() > TAPE_BYTES {
        return Some(SetError::TapeLength);
    }
    None
}
