//! Prints the answer to a property.
ghost use Rattle.std.specs.Prelude.{◌≡◌, ◌++◌, OnOk};
ghost use Rattle.std.specs.Fmt.{decimal};
ghost use Rattle.std.specs.List.{flat_map};
ghost use Rattle.chip_check.specs.Answer.{answer_members, answer_object, answer_text, answer_word, answer_words, further_event, is_bad, key_event, key_events, met_at, met_words, never_words, proved_words, scope_words, unmet_up_to, unmet_words};

use crate::json::push_quoted;
use chip_explore::{KeyEvent, Outcome};
use chip_properties::Kind;
use chip_trace::push_decimal;
use std::alloc::{AllocError, Global};

/// The machines that a proof covers.
#[derive(Clone, Copy, PartialEq, Eq)]
pub enum Scope {
    /// Machines with the rate and the random bytes of the settings.
    AtRate,
    /// Machines with the random bytes of the settings, whenever the timers tick.
    AtAnySpeed,
    /// All machines, with any keys, random bytes and speed.
    Anything,
}

/// The answer to a property of one kind.
#[derive(Clone, Copy)]
pub struct PropertyAnswer<'a> {
    pub kind: Kind,
    pub outcome: &'a Outcome,
    /// The machines that the answer covers. If it is not `AtRate`, the answer is a proof, whatever the outcome is.
    pub scope: Scope,
}

/// The place of a property: the name of the source, the line number, and the property's text.
#[derive(Clone, Copy)]
pub struct PropertyPlace<'a> {
    pub name: &'a [u8],
    pub line: usize,
    pub text: &'a [u8],
}

impl PropertyAnswer<'_> {
    /// Appends the answer as a line of text, or as a JSON object.
    ///
    /// # Errors
    ///
    /// Out of memory.
    pub fn push(
        &self,
        alloc: Global,
        text: &mut Vec<u8>,
        is_json: bool,
        place: &PropertyPlace<'_>,
    ) -> Result<(), AllocError>
        ensures { OnOk result (text.new.items ≡ text.old.items ++ answer_text is_json
            place.now.name.now place.now.line place.now.text.now self.now.kind
            self.now.scope self.now.outcome.now) }
    {
        if is_json {
            return self.push_object(alloc, text, place);
        }
        text.extend_from_slice(place.name)?;
        text.extend_from_slice(b":")?;
        push_decimal(text, place.line as u64)?;
        text.extend_from_slice(b": ")?;
        self.push_words(text)?;
        text.extend_from_slice(b": ")?;
        text.extend_from_slice(place.text)?;
        text.extend_from_slice(b"\n")
    }

    fn push_object(
        &self,
        alloc: Global,
        text: &mut Vec<u8>,
        place: &PropertyPlace<'_>,
    ) -> Result<(), AllocError>
        ensures { OnOk result (text.new.items ≡ text.old.items ++ answer_object place.now.name.now
            place.now.line place.now.text.now self.now.kind self.now.scope
            self.now.outcome.now) }
    {
        text.extend_from_slice(b"{\"line\":")?;
        push_decimal(text, place.line as u64)?;
        text.extend_from_slice(b",\"property\":")?;
        push_quoted(alloc, text, place.text)?;
        text.extend_from_slice(b",\"answer\":\"")?;
        self.push_word(text)?;
        text.extend_from_slice(b"\"")?;
        push_members(text, self.outcome)?;
        text.extend_from_slice(b",\"file\":")?;
        push_quoted(alloc, text, place.name)?;
        text.extend_from_slice(b"}\n")
    }

    /// Appends the outcome in words.
    fn push_words(&self, text: &mut Vec<u8>) -> Result<(), AllocError>
        ensures { OnOk result (text.new.items ≡ text.old.items
            ++ answer_words self.now.kind self.now.scope self.now.outcome.now) }
    {
        if self.scope != Scope::AtRate {
            return push_never(text, self.kind, self.scope);
        }
        match self.outcome {
            Outcome::Found { step, .. } => push_met(text, self.kind, *step),
            Outcome::Later { step, covered, .. } => {
                push_met(text, self.kind, *step)?;
                text.extend_from_slice(b", ")?;
                push_unmet(text, self.kind, *covered)
            }
            Outcome::Within(step) => push_unmet(text, self.kind, *step),
            Outcome::Never => push_never(text, self.kind, Scope::AtRate),
        }
    }

    /// Appends the outcome in words, without its steps.
    fn push_word(&self, text: &mut Vec<u8>) -> Result<(), AllocError>
        ensures { OnOk result (text.new.items ≡ text.old.items
            ++ answer_word self.now.kind self.now.scope self.now.outcome.now) }
    {
        if self.scope != Scope::AtRate {
            return push_never(text, self.kind, self.scope);
        }
        match self.outcome {
            Outcome::Found { .. } | Outcome::Later { .. } => {
                text.extend_from_slice(met_words(self.kind))
            }
            Outcome::Within(_) => text.extend_from_slice(unmet_words(self.kind)),
            Outcome::Never => push_never(text, self.kind, Scope::AtRate),
        }
    }
}

/// Whether a property is broken, an `ever` isn't reached, or a `can` has a dead end.
pub fn is_bad(kind: Kind, outcome: &Outcome) -> bool
    ensures { result ≡ is_bad kind outcome.now }
{
    match (kind, outcome) {
        (Kind::Ever, Outcome::Found { .. } | Outcome::Later { .. }) => false,
        (Kind::Ever, Outcome::Within(_) | Outcome::Never) => true,
        (_, Outcome::Found { .. } | Outcome::Later { .. }) => true,
        (_, Outcome::Within(_) | Outcome::Never) => false,
    }
}

/// The words for a property that a script breaks or reaches.
fn met_words(kind: Kind) -> &'static [u8]
    ensures { result.now ≡ met_words kind }
{
    match kind {
        Kind::Ever => b"reached",
        Kind::Can => b"dead end",
        Kind::Always | Kind::Never => b"broken",
    }
}

/// The words for a property that no script breaks or reaches within a number of steps.
fn unmet_words(kind: Kind) -> &'static [u8]
    ensures { result.now ≡ unmet_words kind }
{
    match kind {
        Kind::Ever => b"not reached",
        Kind::Can => b"undecided",
        Kind::Always | Kind::Never => b"unbroken",
    }
}

fn push_met(text: &mut Vec<u8>, kind: Kind, step: u32) -> Result<(), AllocError>
    ensures { OnOk result (text.new.items ≡ text.old.items ++ met_at kind step) }
{
    text.extend_from_slice(met_words(kind))?;
    text.extend_from_slice(b" at step ")?;
    push_decimal(text, u64::from(step))
}

fn push_unmet(text: &mut Vec<u8>, kind: Kind, step: u64) -> Result<(), AllocError>
    ensures { OnOk result (text.new.items ≡ text.old.items ++ unmet_up_to kind step) }
{
    text.extend_from_slice(unmet_words(kind))?;
    text.extend_from_slice(b" up to step ")?;
    push_decimal(text, step)
}

/// The words for a property that no script can ever break or reach.
fn proved_words(kind: Kind) -> &'static [u8]
    ensures { result.now ≡ proved_words kind }
{
    match kind {
        Kind::Ever => b"never reached",
        Kind::Can => b"always",
        Kind::Always | Kind::Never => b"proved",
    }
}

/// The words that follow a proof and state which machines it covers.
fn scope_words(scope: Scope) -> &'static [u8]
    ensures { result.now ≡ scope_words scope }
{
    match scope {
        Scope::AtRate => b"",
        Scope::AtAnySpeed => b" at any speed",
        Scope::Anything => b" for any keys, random bytes and speed",
    }
}

fn push_never(text: &mut Vec<u8>, kind: Kind, scope: Scope) -> Result<(), AllocError>
    ensures { OnOk result (text.new.items ≡ text.old.items ++ never_words kind scope) }
{
    if kind == Kind::Can {
        return text.extend_from_slice(b"always");
    }
    text.extend_from_slice(proved_words(kind))?;
    text.extend_from_slice(scope_words(scope))
}

/// Appends the members of the JSON object that contain the steps and the key events.
fn push_members(text: &mut Vec<u8>, outcome: &Outcome) -> Result<(), AllocError>
    ensures { OnOk result (text.new.items ≡ text.old.items ++ answer_members outcome.now) }
{
    match outcome {
        Outcome::Found { events, step, .. } => {
            push_member(text, b",\"step\":", u64::from(*step))?;
            push_key_events(text, events)
        }
        Outcome::Later {
            events,
            step,
            covered,
            ..
        } => {
            push_member(text, b",\"step\":", u64::from(*step))?;
            push_member(text, b",\"covered\":", *covered)?;
            push_key_events(text, events)
        }
        Outcome::Within(covered) => push_member(text, b",\"covered\":", *covered),
        Outcome::Never => Ok(()),
    }
}

fn push_member(text: &mut Vec<u8>, name: &[u8], number: u64) -> Result<(), AllocError>
    ensures { OnOk result (text.new.items ≡ text.old.items ++ name.now ++ decimal number) }
{
    text.extend_from_slice(name)?;
    push_decimal(text, number)
}

fn push_key_events(text: &mut Vec<u8>, events: &[KeyEvent]) -> Result<(), AllocError>
    ensures { OnOk result (text.new.items ≡ text.old.items ++ key_events events.now) }
{
    text.extend_from_slice(b",\"keys\":[")?;
    if let Some((first, others)) = events.split_first() {
        push_key_event(text, first)?;
        push_further_events(text, others)?;
    }
    text.extend_from_slice(b"]")
}

fn push_further_events(text: &mut Vec<u8>, events: &[KeyEvent]) -> Result<(), AllocError>
    ensures { OnOk result (text.new.items ≡ text.old.items ++ flat_map further_event events.now) }
{
    for event in events {
        text.extend_from_slice(b",")?;
        push_key_event(text, event)?;
    }
    Ok(())
}

fn push_key_event(text: &mut Vec<u8>, event: &KeyEvent) -> Result<(), AllocError>
    ensures { OnOk result (text.new.items ≡ text.old.items ++ key_event event.now) }
{
    let down: &[u8] = if event.down { b"true" } else { b"false" };
    push_member(text, b"{\"step\":", u64::from(event.step))?;
    push_member(text, b",\"key\":", u64::from(event.key))?;
    text.extend_from_slice(b",\"down\":")?;
    text.extend_from_slice(down)?;
    text.extend_from_slice(b"}")
}
