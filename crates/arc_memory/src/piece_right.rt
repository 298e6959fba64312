//! The right to free a piece of memory, apart from the room for its header and its places.
ghost use Rattle.std.specs.Prelude.{◌≡◌, ℕ, ◌^◌, ◌<◌, []};
ghost use Rattle.std.specs.Coded.{coded×, coded_ℕ};
ghost use denote.RawPtr.{Ptr, coded_ptr};
ghost use Rattle.core.specs.Mem.{type_size};
ghost use Rattle.arc_memory.specs.Pieces.{piece_right, piece_bytes, head_size, in_units, behind};

use crate::head_size::HeadSize;
use crate::header_block::HeaderBlock;
use crate::places::Places;
use arc_owners::owners::HeaderRoom;
use std::alloc::Allocator;
use std::marker::{Model, PhantomData};

/// The right to free a piece, for whoever has the room for its header and its places besides. Its
/// type names no header's: it is for any header of its size. No bytes, and neither copied nor
/// dropped.
pub struct PieceRight<T, A: Allocator> {
    marker: PhantomData<(T, A)>,
    pub ghost alloc: { A },
    pub ghost place: { Ptr } by { coded_ptr },
    pub ghost head: { ℕ × ℕ } by { coded× coded_ℕ coded_ℕ },
    pub ghost count: { ℕ },
}

impl<T, A: Allocator> Model for PieceRight<T, A> {
    ghost also_owns = { λ r.
        piece_right T.row (A.dealloc_token r.alloc) r.head r.count r.place };
}

impl<T, A: Allocator> PieceRight<T, A> {
    /// A block, cut: the room for a header, the right to free both, and the places behind it, all
    /// empty. Then where these begin.
    pub(crate) fn cut<X>(
        block: HeaderBlock<A>,
        front: usize,
        count: usize,
    ) -> (HeaderRoom<X>, PieceRight<T, A>, Places<T>, *const T)
        requires block { block.bytes ≡ piece_bytes T.row (head_size X.row) count }
        requires front { front ≡ in_units (type_size X.row) }
        requires small { count < 2 ^ 63 }
        ensures room { result.0.at ≡ result.1.place }
        ensures right { (result.1.alloc ≡ block.alloc) × (result.1.head ≡ head_size X.row)
            × (result.1.count ≡ count) }
        ensures places { (result.2.base ≡ result.3) × (result.2.whole ≡ count)
            × (result.2.start ≡ 0) × (result.2.count ≡ count) × (result.2.items ≡ []) }
        ensures base { result.3 ≡ behind result.1.head result.1.place }
    {
        let HeaderBlock { ptr, marker: _ } = block;
        let base = unsafe { ptr.add(front) };
        (
            HeaderRoom { at: ptr as *mut X },
            PieceRight {
                marker: PhantomData,
            },
            Places {
                marker: PhantomData,
            },
            base as *const T,
        )
    }

    /// The block again, of the room and all places, which are empty.
    pub(crate) fn whole<X>(
        self,
        room: HeaderRoom<X>,
        head: HeadSize<X>,
        places: Places<T>,
    ) -> HeaderBlock<A>
        requires room { (room.at ≡ self.place) × (head.size ≡ self.head) }
        requires places { (places.base ≡ behind self.head self.place)
            × (places.start ≡ 0) × (places.count ≡ self.count) × (places.items ≡ []) }
        ensures block { (result.alloc ≡ self.alloc)
            × (result.bytes ≡ piece_bytes T.row self.head self.count) }
        ensures head { self.head ≡ head_size X.row }
    {
        let PieceRight { marker: _ } = self;
        let HeaderRoom { at } = room;
        let HeadSize { marker: _ } = head;
        let Places { marker: _ } = places;
        HeaderBlock {
            ptr: at as *mut u8,
            marker: PhantomData,
        }
    }
}

// It only frees.
unsafe impl<T, A: Allocator + Send> Send for PieceRight<T, A> {}

// A `&` to it does nothing.
unsafe impl<T, A: Allocator + Send> Sync for PieceRight<T, A> {}
