// The handle in which a host stores a session.
ghost use Rattle.std.specs.Prelude.{◌≡◌, None, Some, is_some, true, option_map};

use crate::opened::Opened;
use crate::owner::Owner;
use crate::raw_box::RawBox;
use std::alloc::Global;
use std::mem::replace;

/// A session, or none. A handle takes up 16 bytes, which are all zero if there is no session.
#[repr(C)]
#[derive(Drop)]
pub struct Handle {
    is_full: bool,
    pub owner: Owner,
    ghost tells: { is_some owner.session ≡ is_full },
}

impl Handle {
    pub fn none(alloc: Global) -> Handle
        ensures { result.owner.session ≡ None }
    {
        Handle {
            is_full: false,
            owner: Owner::none(alloc),
        }
    }

    pub fn of(opened: Box<Opened>) -> Handle
        ensures { result.owner.session ≡ Some opened.value }
    {
        Handle {
            is_full: true,
            owner: Owner::of_raw(RawBox::take_apart(opened)),
        }
    }

    // Returns the session, if there is one, and leaves the handle without a session.
    pub fn take(&mut self, alloc: Global) -> Option<Box<Opened>>
        ensures taken { option_map (λ opened. opened.value) result ≡ self.old.owner.session }
        ensures none { self.new.owner.session ≡ None }
    {
        let Handle { is_full, owner } = replace(self, Handle::none(alloc));
        if is_full {
            Some(owner.into_raw().put_together())
        } else {
            None
        }
    }
}
