//! The key events, ordered by step.

ghost use Rattle.std.specs.Prelude.{◌≡◌, ℕ, ◌+◌, ◌*◌, ◌<◌, ◌≤◌, ◌==◌, ◌&&◌, [], ◌∷◌, ◌++◌, length, None, Some, IsTrue, IsSome, IfOk, OnOk, OnErr, if◌then◌else◌, slice_index_or};
ghost use Rattle.std.specs.List.{All, insert, remove};
ghost use Rattle.std.specs.Global.{Vec};
ghost use Rattle.chip_replay.specs.inner.Changes.{change_at, rank, all_events, count_before, index_of, IsInOrder, IsFirstFrom, IsPage, IsPlace, HasRoom};

use crate::limits::{KEY_COUNT, NEVER};
use std::alloc::{AllocError, Global};

/// The maximum number of events in a page.
const PAGE_EVENTS: usize = 128;

/// The number of events that stay in a full page when it is split.
const HALF_PAGE: usize = PAGE_EVENTS / 2;

/// A key event: a key goes down, or up, at a step.
#[derive(Clone, Copy)]
pub(crate) struct Event {
    pub(crate) step: u32,
    /// The number of the key, 0 to 15.
    pub(crate) key: u8,
    pub(crate) down: bool,
}

/// The position of an event.
#[derive(Clone, Copy)]
pub(crate) struct Place {
    page: usize,
    /// The index among the events of the page.
    index: usize,
}

impl Place {
    /// The position of the first event.
    pub(crate) const FIRST: Place = Place { page: 0, index: 0 };
}

/// The events, ordered by step and then by key. They are stored in pages, so that an edit moves only
/// the events of one page.
#[derive(Drop)]
pub(crate) struct Steps {
    pub(crate) pages: Vec<Vec<Event>>,
    ghost paged: { All IsPage pages.items },
}

impl Steps {
    /// Returns an empty list of events.
    pub(crate) fn new(alloc: Global) -> Self
        ensures { all_events result.pages.items ≡ [] }
    {
        Steps {
            pages: Vec::new(alloc),
        }
    }

    /// The step of the event at a position, or `NEVER` past the last event.
    pub(crate) fn step_at(&self, place: Place) -> u32
        requires { IsPlace self.now.pages.items place }
        ensures there { (d : Event)
            → index_of self.now.pages.items place < length (all_events self.now.pages.items)
            → result
            ≡ (slice_index_or (all_events self.now.pages.items)
            (index_of self.now.pages.items place) d).step }
        ensures past { length (all_events self.now.pages.items)
            ≤ index_of self.now.pages.items place
            → result ≡ NEVER }
    {
        if place.page < self.pages.len() {
            self.pages[place.page][place.index].step
        } else {
            NEVER
        }
    }

    /// The events of a page, starting at a position.
    pub(crate) fn rest_of_page(&self, place: Place) -> &[Event]
        requires place { IsPlace self.now.pages.items place }
        requires there { index_of self.now.pages.items place
            < length (all_events self.now.pages.items) }
        ensures length { (d : Vec Event) → place.index + length result.now
            ≡ length (slice_index_or self.now.pages.items place.page d).items }
        ensures some { 0 < length result.now }
        ensures within { index_of self.now.pages.items place + length result.now
            ≤ length (all_events self.now.pages.items) }
        ensures same { (i : ℕ) (d : Event) → i < length result.now
            → slice_index_or (all_events self.now.pages.items)
            (index_of self.now.pages.items place + i) d
            ≡ slice_index_or result.now i d }
    {
        &self.pages[place.page][place.index..]
    }

    /// The position `count` events after another position in its page. If no later event is in that page,
    /// the position of the next page's first event.
    pub(crate) fn later(&self, place: Place, count: usize) -> Place
        requires page { place.page < length self.now.pages.items }
        requires within { (d : Vec Event)
            → place.index + count
            ≤ length (slice_index_or self.now.pages.items place.page d).items }
        ensures place { IsPlace self.now.pages.items result }
        ensures later { index_of self.now.pages.items result
            ≡ index_of self.now.pages.items place + count }
    {
        let events = &self.pages[place.page];
        let index = place.index + count;
        if index < events.len() {
            Place {
                page: place.page,
                index,
            }
        } else {
            Place {
                page: place.page + 1,
                index: 0,
            }
        }
    }

    /// The position of the first event that doesn't come before a given step and key.
    #[cold]
    #[inline(never)]
    fn place(&self, step: u32, key: u8) -> Place
        requires { IsInOrder (all_events self.now.pages.items) }
        ensures place { IsPlace self.now.pages.items result }
        ensures at_most { index_of self.now.pages.items result
            ≤ length (all_events self.now.pages.items) }
        ensures before { (i : ℕ) (d : Event) → i < index_of self.now.pages.items result
            → rank (slice_index_or (all_events self.now.pages.items) i d) < step * 16 + key }
        ensures after { (i : ℕ) (d : Event) → index_of self.now.pages.items result ≤ i
            → i < length (all_events self.now.pages.items)
            → step * 16 + key ≤ rank (slice_index_or (all_events self.now.pages.items) i d) }
    {
        let wanted = rank(step, key);
        let page = self.page(wanted);
        if page == self.pages.len() {
            return Place { page, index: 0 };
        }
        Place {
            page,
            index: index_in(&self.pages[page], wanted),
        }
    }

    /// The first page that contains an event whose rank is at least `wanted`.
    fn page(&self, wanted: u64) -> usize
        requires { IsInOrder (all_events self.now.pages.items) }
        ensures at_most { result ≤ length self.now.pages.items }
        ensures before { (i : ℕ) (d : Event) → i < count_before self.now.pages.items result
            → rank (slice_index_or (all_events self.now.pages.items) i d) < wanted }
        ensures after { (i : ℕ) (d : Event) → result < length self.now.pages.items
            → count_before self.now.pages.items (result + 1) ≤ i + 1
            → i < length (all_events self.now.pages.items)
            → wanted ≤ rank (slice_index_or (all_events self.now.pages.items) i d) }
    {
        let mut low = 0;
        let mut high = self.pages.len();
        while low < high {
            let middle = low + (high - low) / 2;
            let event = self.last_of(middle);
            if rank(event.step, event.key) < wanted {
                low = middle + 1;
            } else {
                high = middle;
            }
        }
        low
    }

    /// The last event of a page.
    fn last_of(&self, page: usize) -> Event
        requires { page < length self.now.pages.items }
        ensures some { count_before self.now.pages.items page
            < count_before self.now.pages.items (page + 1) }
        ensures within { count_before self.now.pages.items (page + 1)
            ≤ length (all_events self.now.pages.items) }
        ensures last { (i : ℕ) (d : Event) → i + 1 ≡ count_before self.now.pages.items (page + 1)
            → slice_index_or (all_events self.now.pages.items) i d ≡ result }
    {
        let events = &self.pages[page];
        events[events.len() - 1]
    }

    /// The position of the first event whose step is not before `step`. The function tries `guess` before
    /// it searches.
    pub(crate) fn first_from(&self, step: u32, guess: Place) -> Place
        requires { IsInOrder (all_events self.now.pages.items) }
        ensures place { IsPlace self.now.pages.items result }
        ensures first { IsFirstFrom (all_events self.now.pages.items) step
            (index_of self.now.pages.items result) }
    {
        if self.is_first_from(guess, step) {
            guess
        } else {
            self.place(step, 0)
        }
    }

    /// Whether a position is that of the first event whose step is not before `step`.
    fn is_first_from(&self, place: Place, step: u32) -> bool
        requires { IsInOrder (all_events self.now.pages.items) }
        ensures place { IsTrue result → IsPlace self.now.pages.items place }
        ensures first { IsTrue result
            → IsFirstFrom (all_events self.now.pages.items) step
            (index_of self.now.pages.items place) }
    {
        if place.page >= self.pages.len() {
            return false;
        }
        let events = &self.pages[place.page];
        if place.index >= events.len() || events[place.index].step < step {
            return false;
        }
        if place.index > 0 {
            return events[place.index - 1].step < step;
        }
        place.page == 0 || self.last_of(place.page - 1).step < step
    }

    /// Adds an event, whose key must not have an event at its step. If memory runs out, fails and leaves
    /// the events unchanged.
    pub(crate) fn insert(&mut self, event: Event) -> Result<(), AllocError>
        requires key { event.key < KEY_COUNT }
        requires in_order { IsInOrder (all_events self.old.pages.items) }
        requires absent { change_at (all_events self.old.pages.items) event.step event.key ≡ None }
        ensures in_order { IsInOrder (all_events self.new.pages.items) }
        ensures ok { OnOk result ((s k : ℕ) → change_at (all_events self.new.pages.items) s k
            ≡ (if s == event.step && k == event.key then Some event.down
            else change_at (all_events self.old.pages.items) s k)) }
        ensures err { OnErr result (all_events self.new.pages.items
            ≡ all_events self.old.pages.items) }
    {
        let place = self.place(event.step, event.key);
        self.insert_at(place, event)?;
        Ok(())
    }

    /// Adds an event before the event at a position, or after all events. If memory runs out, fails and
    /// leaves the events unchanged.
    fn insert_at(&mut self, place: Place, event: Event) -> Result<(), AllocError>
        requires place { IsPlace self.old.pages.items place }
        requires at_most { index_of self.old.pages.items place
            ≤ length (all_events self.old.pages.items) }
        ensures ok { OnOk result (all_events self.new.pages.items
            ≡ insert (all_events self.old.pages.items)
            (index_of self.old.pages.items place) event) }
        ensures err { OnErr result (all_events self.new.pages.items
            ≡ all_events self.old.pages.items) }
    {
        if place.page >= self.pages.len() {
            return self.push(event);
        }
        let place = self.with_room(place)?;
        self.pages[place.page].insert(place.index, event)?;
        Ok(())
    }

    /// Returns a position in a page that can take another event; a full page is split in two. Fails if
    /// memory runs out.
    fn with_room(&mut self, place: Place) -> Result<Place, AllocError>
        requires page { place.page < length self.old.pages.items }
        requires place { IsPlace self.old.pages.items place }
        ensures same { all_events self.new.pages.items ≡ all_events self.old.pages.items }
        ensures room { IfOk result (λ p. HasRoom self.new.pages.items p) }
        ensures index { IfOk result (λ p. index_of self.new.pages.items p
            ≡ index_of self.old.pages.items place) }
    {
        if self.pages[place.page].len() < PAGE_EVENTS {
            return Ok(place);
        }
        self.pages.reserve(1)?;
        let later = self.pages[place.page].split_off(HALF_PAGE)?;
        // The list of pages has capacity for one more page.
        self.pages.insert(place.page + 1, later)?;
        if place.index <= HALF_PAGE {
            Ok(place)
        } else {
            Ok(Place {
                page: place.page + 1,
                index: place.index - HALF_PAGE,
            })
        }
    }

    /// Adds an event after all others. If memory runs out, fails and leaves the events unchanged.
    fn push(&mut self, event: Event) -> Result<(), AllocError>
        ensures ok { OnOk result (all_events self.new.pages.items
            ≡ all_events self.old.pages.items ++ event ∷ []) }
        ensures err { OnErr result (all_events self.new.pages.items
            ≡ all_events self.old.pages.items) }
    {
        let count = self.pages.len();
        if count > 0 && self.pages[count - 1].len() < PAGE_EVENTS {
            self.pages[count - 1].push(event)?;
            return Ok(());
        }
        let mut page = Vec::new(*self.pages.allocator());
        page.push(event)?;
        self.pages.push(page)?;
        Ok(())
    }

    /// Changes the event of a key at a step to down or up.
    pub(crate) fn replace(&mut self, event: Event)
        requires key { event.key < KEY_COUNT }
        requires in_order { IsInOrder (all_events self.old.pages.items) }
        requires there { IsSome (change_at (all_events self.old.pages.items) event.step event.key) }
        ensures in_order { IsInOrder (all_events self.new.pages.items) }
        ensures set { (s k : ℕ) → change_at (all_events self.new.pages.items) s k
            ≡ (if s == event.step && k == event.key then Some event.down
            else change_at (all_events self.old.pages.items) s k) }
    {
        let place = self.place(event.step, event.key);
        self.pages[place.page][place.index] = event;
    }

    /// Removes the event of a key at a step.
    pub(crate) fn remove(&mut self, step: u32, key: u8)
        requires key { key < KEY_COUNT }
        requires in_order { IsInOrder (all_events self.old.pages.items) }
        requires there { IsSome (change_at (all_events self.old.pages.items) step key) }
        ensures in_order { IsInOrder (all_events self.new.pages.items) }
        ensures set { (s k : ℕ) → change_at (all_events self.new.pages.items) s k
            ≡ (if s == step && k == key then None
            else change_at (all_events self.old.pages.items) s k) }
    {
        let place = self.place(step, key);
        self.remove_at(place);
    }

    /// Removes the event at a position, and also its page if that was the page's only event.
    fn remove_at(&mut self, place: Place)
        requires place { IsPlace self.old.pages.items place }
        requires there { index_of self.old.pages.items place
            < length (all_events self.old.pages.items) }
        ensures { all_events self.new.pages.items
            ≡ remove (all_events self.old.pages.items) (index_of self.old.pages.items place) }
    {
        if self.pages[place.page].len() == 1 {
            self.pages.remove(place.page);
        } else {
            self.pages[place.page].remove(place.index);
        }
    }
}

/// The index of the first event in a page whose rank is at least `wanted`.
fn index_in(events: &[Event], wanted: u64) -> usize
    requires { IsInOrder events.now }
    ensures at_most { result ≤ length events.now }
    ensures before { (i : ℕ) (d : Event) → i < result
        → rank (slice_index_or events.now i d) < wanted }
    ensures after { (i : ℕ) (d : Event) → result ≤ i → i < length events.now
        → wanted ≤ rank (slice_index_or events.now i d) }
{
    let mut low = 0;
    let mut high = events.len();
    while low < high {
        let middle = low + (high - low) / 2;
        let event = events[middle];
        if rank(event.step, event.key) < wanted {
            low = middle + 1;
        } else {
            high = middle;
        }
    }
    low
}

/// The number of a step and key in the order of the events.
fn rank(step: u32, key: u8) -> u64
    ensures { result ≡ step * 16 + key }
{
    u64::from(step) * 16 + u64::from(key)
}
