//! The settings that a host requests.
ghost use Rattle.std.specs.Prelude.{◌≡◌, ◌≢◌, ◌⊎◌, IfOk, IfErr, None, Some, Option};
ghost use Rattle.chip_session.specs.Settings.{settings_fault};
ghost use Rattle.chip_web.specs.Opening.{asked_quirks, asked_settings, asked_status, profile_numbered, quirks_listed, quirks_status};
ghost use Rattle.chip_web.specs.declared.status.TheConstants.{DONE, NO_MEMORY};

use crate::status::{self, UNKNOWN_PROFILE, UNKNOWN_QUIRKS};
use chip_machine::{Profile, Quirks};
use chip_session::Settings;
use std::alloc::Global;

/// The settings of a host: the number of steps per tick, the number of the profile, the number of
/// steps between two checkpoints, and the seed for the hashes of names.
#[repr(C)]
#[derive(Clone, Copy)]
pub struct AskedSettings {
    pub rate: u32,
    pub profile: u32,
    pub spacing: u32,
    pub name_seed: u64,
}

impl AskedSettings {
    /// Returns these settings with a tape and with a list of quirks. The list contains the quirks in
    /// which the machine differs from the profile.
    ///
    /// # Errors
    ///
    /// The number of the first fault, or `NO_MEMORY` if memory runs out.
    pub fn with_tape(&self, alloc: Global, tape: &[u8], list: &[u8]) -> Result<Settings, u32>
        ensures ok { IfOk result (λ settings. (asked_status self.now tape.now list.now ≡ DONE)
            × (settings ≡ asked_settings self.now tape.now list.now)) }
        ensures err { IfErr result (λ status. (status ≢ DONE) × ((status ≡ NO_MEMORY)
            ⊎ (status ≡ asked_status self.now tape.now list.now))) }
    {
        let quirks = self.quirks(list)?;
        let settings = match Settings::new(alloc, self.rate, tape) {
            Ok(settings) => settings,
            Err(error) => return Err(status::of_settings(error)),
        };
        match settings.with_quirks(quirks).with_spacing(self.spacing) {
            Ok(settings) => Ok(settings.with_name_seed(self.name_seed)),
            Err(error) => Err(status::of_settings(error)),
        }
    }

    /// Returns the quirks of the profile, changed by the choices in a list. Fails with the number of the
    /// fault if there is no such profile or the list is invalid.
    fn quirks(&self, list: &[u8]) -> Result<Quirks, u32>
        ensures ok { IfOk result (λ quirks. (quirks_status self.now list.now ≡ DONE)
            × (asked_quirks self.now list.now ≡ Some quirks)) }
        ensures err { IfErr result (λ status. (status ≢ DONE)
            × (status ≡ quirks_status self.now list.now)) }
    {
        let Some(profile) = profile_of(self.profile) else {
            return Err(UNKNOWN_PROFILE);
        };
        match listed(profile.quirks(), list) {
            Some(quirks) => Ok(quirks),
            None => Err(UNKNOWN_QUIRKS),
        }
    }
}

/// Returns quirks, changed by the choices in a list, or `None` if the list is invalid. An empty list
/// contains no choices.
fn listed(quirks: Quirks, list: &[u8]) -> Option<Quirks>
    ensures { result ≡ quirks_listed list.now quirks }
{
    if list.is_empty() {
        Some(quirks)
    } else {
        quirks.with_choices(list)
    }
}

fn profile_of(number: u32) -> Option<Profile>
    ensures { result ≡ profile_numbered number }
{
    match number {
        0 => Some(Profile::Schip),
        1 => Some(Profile::Vip),
        2 => Some(Profile::Chip48),
        3 => Some(Profile::Schip10),
        4 => Some(Profile::SchipModern),
        5 => Some(Profile::Octo),
        _ => None,
    }
}
