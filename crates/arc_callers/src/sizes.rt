//! How many bytes a window over bytes takes in itself, over the allocator `Global`.
ghost use Rattle.std.specs.Prelude.{◌≡◌};

use arc_slice::inlined::SmallArcBytes;
use arc_slice::{ArcBytes, ArcBytesMut, ArcBytesShared};

/// The bytes of a window that is read: five words.
pub fn of_reader() -> usize
    ensures { result ≡ 40 }
{
    size_of::<ArcBytes>()
}

/// The bytes of a sole writer's window: twelve words.
pub fn of_sole_writer() -> usize
    ensures { result ≡ 96 }
{
    size_of::<ArcBytesMut>()
}

/// The bytes of a window of one of several writers: thirteen words.
pub fn of_one_writer_of_several() -> usize
    ensures { result ≡ 104 }
{
    size_of::<ArcBytesShared>()
}

/// The bytes of a small window: six words.
pub fn of_small_window() -> usize
    ensures { result ≡ 48 }
{
    size_of::<SmallArcBytes>()
}
