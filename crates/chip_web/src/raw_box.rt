// A box that is split into its pointer and its allocator.
ghost use Rattle.std.specs.Prelude.{◌≡◌};
ghost use Rattle.std.specs.Box.Ownership.{box_owns};

use std::alloc::Allocator;
use std::marker::Model;

// The pointer and the allocator of a box, which own what the box owned.
pub struct RawBox<T, A: Allocator> {
    pub(crate) pointer: *mut T,
    pub(crate) allocator: A,
    pub ghost value: { T },
}

impl<T, A: Allocator> Model for RawBox<T, A> {
    ghost also_owns = { λ raw.
        box_owns (A.dealloc_token raw.allocator) T.row raw.pointer raw.value };
}

impl<T, A: Allocator> RawBox<T, A> {
    pub fn take_apart(whole: Box<T, A>) -> RawBox<T, A>
    where
        T: Drop,
        ensures { result.value ≡ whole.value }
    {
        let (pointer, allocator) = Box::into_raw_with_allocator(whole);
        RawBox { pointer, allocator }
    }

    pub fn put_together(self) -> Box<T, A>
        ensures { result.value ≡ self.value }
    {
        let RawBox { pointer, allocator } = self;
        unsafe { Box::from_raw(allocator, pointer) }
    }
}
