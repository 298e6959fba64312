//! Windows under each layout, and from one to another.
ghost use Rattle.std.specs.Prelude.{◌≡◌, IfOk, IfErr};
ghost use Rattle.std.specs.Box.{boxed_slice_items};

use arc_slice::layout::{ArcLayout, BoxedSliceLayout, RawLayout, VecLayout};
use arc_slice::{ArcBytes, ArcBytesMut, ArcSlice};
use std::alloc::Global;
use std::boxed::BoxedSlice;
use std::sync::Arc;

/// Bytes over a box, under the layout of boxed slices.
pub fn over_box(
    alloc: Global,
    bytes: BoxedSlice<u8>,
) -> Result<ArcBytes<BoxedSliceLayout>, BoxedSlice<u8>>
    ensures made { IfOk result (λ window. window.items ≡ boxed_slice_items bytes) }
{
    ArcSlice::try_from_boxed(alloc, bytes)
}

/// A window over an `Arc` that is a block by itself. It takes no memory, so it isn't refused.
pub fn over_arc(alloc: Global, shared: Arc<Vec<u8>>) -> ArcBytes<RawLayout> {
    match ArcSlice::try_from_raw_buffer(alloc, shared) {
        Ok(window) => window,
        Err(_) => unreachable!(),
    }
}

/// The `Arc` again, also where other windows have clones of it.
pub fn arc_again(window: ArcBytes<RawLayout>) -> Result<Arc<Vec<u8>>, ArcBytes<RawLayout>>
    ensures { IfErr result (λ back. back ≡ window) }
{
    window.try_into_raw_buffer()
}

/// A copy on a native block, under a layout that holds no others, and no static data.
pub fn native(alloc: Global, bytes: &[u8]) -> Option<ArcBytes<ArcLayout<false, false>>> {
    match ArcSlice::try_from_slice(alloc, bytes) {
        Ok(window) => Some(window),
        Err(_) => None,
    }
}

/// A window under the layout of vectors, and one that leaves a block which counts an `Arc` for a
/// clone of the `Arc`, which is a block by itself. Each comes back where it is refused.
pub fn moved(
    window: ArcBytes,
    counted: ArcBytes,
) -> (
    Result<ArcBytes<VecLayout>, ArcBytes>,
    Result<ArcBytes<RawLayout>, ArcBytes>,
)
    ensures vector { IfOk result.0 (λ moved. moved.items ≡ window.items) }
    ensures arc { IfOk result.1 (λ moved. moved.items ≡ counted.items) }
    ensures back { IfErr result.1 (λ back. back ≡ counted) }
{
    (
        window.try_with_layout::<VecLayout>(),
        counted.try_with_layout::<RawLayout>(),
    )
}

/// A writer under another layout.
pub fn writer_moved(window: ArcBytesMut) -> Result<ArcBytesMut<VecLayout>, ArcBytesMut>
    ensures moved { IfOk result (λ moved. moved.items ≡ window.items) }
    ensures back { IfErr result (λ back. back ≡ window) }
{
    window.try_with_layout::<VecLayout>()
}
