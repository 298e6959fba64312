//! Windows over callers' buffers, which stay as they are and are given back.
ghost use Rattle.std.specs.Prelude.{◌≡◌, ◌<◌, length, slice_set, IfOk, IfErr, IfSome, Some, None};
ghost use Rattle.std.specs.Arc.{arc_value};
ghost use Rattle.arc_block.specs.Metadata.{FitsGivenAt};
ghost use Rattle.arc_block.specs.Place.{buffer_at};
ghost use Rattle.arc_parts.specs.Window.{IsBufferWhole, IsRawWhole};
ghost use Rattle.std.specs.Vec.{vec_items};

use crate::page::Page;
use arc_slice::buffer::{AsMutBuffer, AsRefBuffer, Buffer, BufferMut, LendMut};
use arc_slice::layout::{DefaultLayout, DefaultLayoutMut};
use arc_slice::{ArcBytes, ArcBytesMut, ArcBytesShared, ArcSlice, ArcSliceMut};
use std::alloc::Global;
use std::sync::Arc;

/// Bytes of pages that are read, each with a name beside it.
pub type Pages = ArcBytes<DefaultLayout, AsRefBuffer<Page>, u64>;

/// Bytes of pages that are written.
pub type PagesMut = ArcBytesMut<DefaultLayoutMut, AsMutBuffer<Page>, u64>;

/// Bytes of one of several writers, in the type of windows over pages.
pub type PagesShared = ArcBytesShared<DefaultLayoutMut, AsMutBuffer<Page>, u64>;

/// Bytes of a vector that others may have by an `Arc`.
pub type Shared = ArcBytes<DefaultLayout, Vec<u8>>;

/// The buffer with another item at `i`. Its other items and its places stay.
pub fn set<T: Drop, B: BufferMut<T>>(buffer: &mut B, i: usize, item: T)
    requires { i < length (B.list buffer.old) }
    ensures list { B.list buffer.new ≡ slice_set (B.list buffer.old) i item }
    ensures places { B.places buffer.new ≡ B.places buffer.old }
{
    buffer.as_mut_slice()[i] = item;
}

/// The value with another item at `i`, written while a buffer wraps it.
pub fn set_lent<T: Drop, B: LendMut<T>>(value: B, i: usize, item: T) -> B
    requires { i < length (B.lent value) }
    ensures { B.lent result ≡ slice_set (B.lent value) i item }
{
    let mut buffer = AsMutBuffer::new(value);
    set(&mut buffer, i, item);
    buffer.into_inner()
}

/// A page that is read, without a name; it comes back where memory for the count is refused.
pub fn over_page(alloc: Global, page: Page) -> Result<Pages, AsRefBuffer<Page>>
    ensures { IfOk result (λ window. window.items ≡ vec_items page.bytes) }
{
    ArcSlice::try_from_buffer(alloc, AsRefBuffer(page))
}

/// A page that is read, with a name.
pub fn over_named(alloc: Global, page: Page, name: u64) -> Result<Pages, (AsRefBuffer<Page>, u64)>
    ensures { IfOk result (λ window. window.items ≡ vec_items page.bytes) }
{
    ArcSlice::try_from_buffer_with_metadata(alloc, AsRefBuffer(page), name)
}

/// The name of a page, and the number that lies in the page.
pub fn names(window: &Pages) -> (Option<u64>, Option<u32>) {
    (
        window.metadata().copied(),
        window.borrowed_metadata().copied(),
    )
}

/// The page again, where no other window lives and this one has all of it.
pub fn page_again(window: Pages) -> Result<AsRefBuffer<Page>, Pages>
    ensures itself { IfOk result (λ page. buffer_at window.place ≡ Some page) }
    ensures back { IfErr result (λ back. back ≡ window) }
{
    window.try_into_buffer()
}

/// Reads a page by a window that is given back at once. It is the page that went in. There is none
/// where memory for the count is refused.
pub fn page_read(alloc: Global, page: Page) -> Option<AsRefBuffer<Page>>
    ensures { IfSome result (λ back. back.0 ≡ page) }
{
    match Pages::try_from_buffer(alloc, AsRefBuffer(page)) {
        Ok(window) => page_again(window).ok(),
        Err(_) => None,
    }
}

/// The number of a page, read through a window over it: it is the page's own. There is none where
/// memory for the count is refused.
pub fn number_read(alloc: Global, page: Page) -> Option<u32>
    ensures { IfSome result (λ number. number ≡ page.number) }
{
    match Pages::try_from_buffer(alloc, AsRefBuffer(page)) {
        Ok(window) => window.borrowed_metadata().copied(),
        Err(_) => None,
    }
}

/// What a window over a buffer shows is a part of the buffer on which it stands.
pub fn known_part<B: Drop + Buffer<u8>>(window: &ArcBytes<DefaultLayout, B, u64>)
    ensures { FitsGivenAt B.list B.places window.now.place window.now.items }
{
    window.known_given();
}

/// One of several writers stands on no page.
pub fn known_no_page(window: &PagesShared)
    ensures { buffer_at window.now.place ≡ None }
{
    window.known_ungiven();
}

/// Ends a reader of a page. The last reader gets the page.
pub fn page_if_last(window: Pages) -> Result<Option<AsRefBuffer<Page>>, Pages>
    ensures itself { IfOk result (λ last. IfSome last (λ page.
        buffer_at window.place ≡ Some page)) }
    ensures back { IfErr result (λ back. (back ≡ window)
        × (¬ IsBufferWhole window.items window.place)) }
{
    window.into_buffer_if_last()
}

/// A window over a vector behind an `Arc`, on a block that counts its owners.
pub fn over_shared(alloc: Global, shared: Arc<Vec<u8>>) -> Result<Shared, Arc<Vec<u8>>>
    ensures back { IfErr result (λ back. back ≡ shared) }
{
    ArcSlice::try_from_raw_buffer(alloc, shared)
}

/// The `Arc` again, where no other window lives.
pub fn shared_again(window: Shared) -> Result<Arc<Vec<u8>>, Shared>
    ensures itself { IfOk result (λ shared. buffer_at window.place ≡ Some (arc_value shared)) }
    ensures back { IfErr result (λ back. back ≡ window) }
{
    window.try_into_raw_buffer()
}

/// Ends a reader of an `Arc`. The last reader gets the `Arc`.
pub fn shared_if_last(window: Shared) -> Result<Option<Arc<Vec<u8>>>, Shared>
    ensures { IfErr result (λ back. (back ≡ window) × (¬ IsRawWhole window.items window.place)) }
{
    window.into_raw_buffer_if_last()
}

/// A page that is written.
pub fn written_page(alloc: Global, page: Page) -> Result<PagesMut, AsMutBuffer<Page>>
    ensures { IfOk result (λ window. window.items ≡ vec_items page.bytes) }
{
    ArcSliceMut::try_from_buffer(alloc, AsMutBuffer::new(page))
}

/// A page that is written, with a name.
pub fn written_named(
    alloc: Global,
    page: Page,
    name: u64,
) -> Result<PagesMut, (AsMutBuffer<Page>, u64)>
    ensures { IfOk result (λ window. window.items ≡ vec_items page.bytes) }
{
    ArcSliceMut::try_from_buffer_with_metadata(alloc, AsMutBuffer::new(page), name)
}

/// The name of a page that is written, the number that lies in the page, and whether the window
/// stands on a page at all.
pub fn names_of_writer(window: &PagesMut) -> (Option<u64>, Option<u32>, bool) {
    (
        window.metadata().copied(),
        window.borrowed_metadata().copied(),
        window.is_on_buffer(),
    )
}

/// The name and the number of a page, asked of one of several writers. It has neither: none stands
/// on a caller's buffer.
pub fn names_of_several(window: &PagesShared) -> (Option<u64>, Option<u32>) {
    (
        window.metadata().copied(),
        window.borrowed_metadata().copied(),
    )
}

/// The page of a writer again.
pub fn page_of_writer(window: PagesMut) -> Result<AsMutBuffer<Page>, PagesMut>
    ensures itself { IfOk result (λ page. buffer_at window.place ≡ Some page) }
    ensures back { IfErr result (λ back. back ≡ window) }
{
    window.try_into_buffer()
}
