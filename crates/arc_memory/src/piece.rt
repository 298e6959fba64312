//! One piece of memory for a header and, behind it, places for items.
ghost use Rattle.std.specs.Prelude.{◌≡◌, ◌*◌, ◌^◌, ◌<◌, [], IfOk, IfSome};
ghost use Rattle.core.specs.Mem.{type_size};
ghost use Rattle.arc_memory.specs.Pieces.{head_size, in_units};

use crate::head_size::HeadSize;
use crate::header_block::HeaderBlock;
use crate::piece_right::PieceRight;
use crate::places::Places;
use arc_owners::error::AllocError;
use arc_owners::owners::HeaderRoom;
use arc_owners::sizes::type_bytes;
use std::alloc::Allocator;

/// The right to free one piece of memory, whose header's room and whose places are owned apart. It
/// is neither copied nor dropped.
pub struct Piece<T, A: Allocator> {
    pub(crate) right: PieceRight<T, A>,
    pub(crate) count: usize,
    alloc: A,
    ghost own: { (alloc ≡ right.alloc) × (count ≡ right.count) },
}

impl<T, A: Allocator> Piece<T, A> {
    ghost use Rattle.arc_memory.specs.PieceParts.{IsAllOfPiece, piece_base, IsRoomOf};

    /// A new piece: the room for its header, where its places begin, the right to free it, and the
    /// places, all empty.
    ///
    /// # Errors
    ///
    /// `AllocError` where there is no memory, where `count` passes `isize::MAX`, or where header
    /// and places, each counted in units of 16 bytes, pass `isize::MAX` bytes together.
    ///
    /// # Allocates
    ///
    /// Once.
    #[inline]
    pub fn new<X>(
        alloc: A,
        count: usize,
    ) -> Result<(HeaderRoom<X>, *const T, Piece<T, A>, Places<T>), AllocError>
        ensures room { IfOk result (λ r. IsRoomOf r.0 (head_size X.row) r.2) }
        ensures alloc { IfOk result (λ r. r.2.alloc ≡ alloc) }
        ensures places { IfOk result (λ r. IsAllOfPiece r.3 r.2 × (r.3.items ≡ [])
            × (r.1 ≡ piece_base r.2) × (r.2.count ≡ count)) }
    {
        let Some(front) = rounded(type_bytes::<X>()) else {
            return Err(AllocError);
        };
        let Some(places) = places_bytes::<T>(count) else {
            return Err(AllocError);
        };
        if front > isize::MAX as usize - places {
            return Err(AllocError);
        }
        match HeaderBlock::new(&alloc, front + places) {
            Some(block) => {
                let (room, right, places, base) = PieceRight::cut(block, front, count);
                Ok((
                    room,
                    base,
                    Piece {
                        right,
                        count,
                        alloc,
                    },
                    places,
                ))
            }
            None => Err(AllocError),
        }
    }

    /// How many places it has.
    #[inline(always)]
    pub fn count(&self) -> usize
        ensures { result ≡ self.now.count }
    {
        self.count
    }

    /// Gives the memory back: the room for the header comes, and all places, which are empty.
    #[inline]
    pub fn free<X>(self, room: HeaderRoom<X>, head: HeadSize<X>, places: Places<T>)
        requires room { IsRoomOf room head.size self }
        requires places { IsAllOfPiece places self }
        requires empty { places.items ≡ [] }
    {
        let Piece {
            right,
            count,
            alloc,
        } = self;
        let block = right.whole(room, head, places);
        let bytes = (type_bytes::<X>() + 15) / 16 * 16 + (count * type_bytes::<T>() + 15) / 16 * 16;
        block.free(&alloc, bytes);
    }
}

/// So many bytes rounded up to units of 16, where that is at most `isize::MAX`.
fn rounded(size: usize) -> Option<usize>
    ensures { IfSome result (λ n. (n ≡ in_units size) × (n < 2 ^ 63) × (size < 2 ^ 63)) }
{
    if size > isize::MAX as usize - 15 {
        return None;
    }
    Some((size + 15) / 16 * 16)
}

/// How many bytes so many places take, rounded up to units of 16, where they and their number are
/// at most `isize::MAX`.
fn places_bytes<T>(count: usize) -> Option<usize>
    ensures { IfSome result (λ n. (n ≡ in_units (count * type_size T.row)) × (n < 2 ^ 63)
        × (count < 2 ^ 63)) }
{
    if count > isize::MAX as usize {
        return None;
    }
    rounded(count.checked_mul(type_bytes::<T>())?)
}
