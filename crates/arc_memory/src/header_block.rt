//! The block that a piece of memory is.
ghost use Rattle.std.specs.Prelude.{◌≡◌, ℕ, IfSome};
ghost use Rattle.core.specs.Allocator.{owned_block};
ghost use Rattle.arc_memory.specs.Pieces.{IsWhole, units_of};

use std::alloc::Allocator;
use std::marker::{Model, PhantomData};

/// A block of this allocator's in which nothing lies, and the right to free it. It is neither
/// copied nor dropped.
pub(crate) struct HeaderBlock<A: Allocator> {
    pub(crate) ptr: *mut u8,
    pub(crate) marker: PhantomData<A>,
    ghost alloc: { A },
    ghost bytes: { ℕ },
    ghost fits: { IsWhole bytes },
}

impl<A: Allocator> Model for HeaderBlock<A> {
    ghost also_owns = { λ b. owned_block (A.dealloc_token b.alloc) (units_of b.bytes) b.ptr };
}

impl<A: Allocator> HeaderBlock<A> {
    /// A block of so many bytes: `None` where it is refused.
    pub(crate) fn new(alloc: &A, bytes: usize) -> Option<HeaderBlock<A>>
        requires { IsWhole bytes }
        ensures { IfSome result (λ b. (b.alloc ≡ alloc.now) × (b.bytes ≡ bytes)) }
    {
        match alloc.allocate(bytes, 16) {
            Ok(ptr) => {
                let marker = PhantomData;
                Some(HeaderBlock { ptr, marker })
            }
            Err(_) => None,
        }
    }

    /// Gives the block back.
    pub(crate) fn free(self, alloc: &A, bytes: usize)
        requires { (self.alloc ≡ alloc.now) × (self.bytes ≡ bytes) }
    {
        let HeaderBlock { ptr, marker: _ } = self;
        unsafe { alloc.deallocate(ptr, bytes, 16) }
    }
}
