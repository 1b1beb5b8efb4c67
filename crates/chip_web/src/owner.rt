// A session on the heap, or none. The pointer points to bytes instead of a session, because no
// vector may be reachable from the type of an export's argument.
ghost use Rattle.std.specs.Prelude.{◌≡◌, None, Some, is_some, true};
ghost use Rattle.std.specs.declared.option.Option.{Option};
ghost use Rattle.chip_web.specs.declared.opened.Opened.{Opened};
ghost use Rattle.chip_web.specs.Owned.{opened_code, owns_session};

use crate::opened::Opened;
use crate::raw_box::RawBox;
use std::alloc::Global;
use std::marker::Model;
use std::ptr::null_mut;

// The owner of a session, or of none. Dropping an owner frees no memory, because a handle takes the
// session out before it drops its owner.
#[repr(C)]
#[derive(Drop)]
pub struct Owner {
    pointer: *mut u8,
    allocator: Global,
    pub ghost session: { Option Opened } by { opened_code },
}

impl Model for Owner {
    ghost also_owns = { λ owner. owns_session owner.allocator owner.pointer owner.session };
}

impl Owner {
    pub fn none(allocator: Global) -> Owner
        ensures { result.session ≡ None }
    {
        Owner {
            pointer: null_mut(),
            allocator,
        }
    }

    pub fn of_raw(raw: RawBox<Opened, Global>) -> Owner
        ensures { result.session ≡ Some raw.value }
    {
        let RawBox { pointer, allocator } = raw;
        Owner {
            pointer: pointer as *mut u8,
            allocator,
        }
    }

    pub fn into_raw(self) -> RawBox<Opened, Global>
        requires { is_some self.session ≡ true }
        ensures { Some result.value ≡ self.session }
    {
        let Owner { pointer, allocator } = self;
        RawBox {
            pointer: pointer as *mut Opened,
            allocator,
        }
    }
}
