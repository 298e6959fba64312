//! Windows that a command makes of what it brings.
ghost use Rattle.std.specs.Prelude.{◌≡◌, ◌<◌, ◌≤◌, IfErr, IfOk, IfSome, Some, true, is_some};
ghost use Rattle.std.specs.Prelude.{length, ℕ};
ghost use Rattle.std.specs.Option.{option_map};
ghost use Rattle.std.specs.Vec.{vec_capacity};
ghost use Rattle.arc_parts.specs.Writers.{IsNewWriter, idle_writer};
ghost use Rattle.arc_commands.specs.Additions.{Founds};
ghost use Rattle.arc_commands.specs.Seen.{map_command, seen_reply};
ghost use Rattle.std.specs.Arc.{arc_value};
ghost use Rattle.arc_commands.specs.Changes.{made_row, vector_row, writer_row};
ghost use Rattle.arc_commands.specs.Changes.{buffer_row, raw_row, written_buffer_row};
ghost use Rattle.arc_commands.specs.declared.command.Cmd.TheVariants as command;
ghost use Rattle.arc_makers.specs.Makers.{HasOwnPlaces, Makes};
ghost use Rattle.arc_slots.specs.Places.{WrapsPlaces};
ghost use Rattle.arc_slots.specs.Slots.{row_of, stand_of};

use arc_block::layout::{Layout, LayoutMut, stands_on_nothing};
use arc_buffer::buffer::{Buffer, BufferMut};
use arc_buffer::kinds::Wraps;
use arc_commands::command::{Cmd, Reply};
use arc_kinds::kinds::{
    CallsOf, Commands, SmallOf, TableCmd, TableReply, TableUnder, ZeroOf, known_legal, vec_of,
};
use arc_owners::error::AllocError;
use arc_owners::mark::Whole;
use arc_owners::owners::Pass;
use arc_parts::parts::Parts;
use arc_read::slice::ArcSlice;
use arc_slots::passes::Passes;
use arc_slots::slot::Slot;
use arc_slots::window::Held;
use arc_write::slice_mut::ArcSliceMut;
use arc_writer_parts::sole::SoleParts;
use small::over_few;
use std::alloc::Allocator;
use std::sync::Arc;

/// A writer's slot: on nothing, or as the first owner of a new block, whose pass is kept.
fn writer<S: Commands<A>, L: Layout, B: BufferMut<S::Item> + Drop, M: Drop, A: Allocator + Copy>(
    window: ArcSliceMut<S, L::Writable, 1, B, M, A, Whole>,
    places: usize,
    pass: Pass<Whole>,
    passes: &mut Passes<A>,
) -> Slot<S, L, B, M, A>
where
    L::Writable: LayoutMut,
    S::Small: SmallOf<S, L, M, A>,
    requires idle { places ≡ 0 → window ≡ idle_writer }
    requires new { 1 ≤ places → IsNewWriter S.DROPS true window.items places window pass }
    requires room { 1 ≤ places
        → length passes.old.of_blocks.items < vec_capacity passes.old.of_blocks }
    ensures row { row_of result
        ≡ writer_row S.DROPS (length passes.old.of_blocks.items) window.items places }
    ensures stand { Founds (stand_of (Some result)) passes.old.of_blocks.items
        passes.new.of_blocks.items }
{
    if places == 0 {
        return Slot::written(window, None);
    }
    let block = passes.keep(None, true, pass);
    Slot::written(window, block)
}

/// A reader's slot, of a window over so many items.
fn reader<S: Commands<A>, L: Layout, B: BufferMut<S::Item> + Drop, M: Drop, A: Allocator + Copy>(
    alloc: A,
    items: &[S::Item],
    passes: &mut Passes<A>,
) -> Result<Slot<S, L, B, M, A>, AllocError>
where
    L::Writable: LayoutMut,
    S::Small: SmallOf<S, L, M, A>,
    requires call { S.Calls.calls.copies ≡ true }
    requires legal { ∥ S.is_legal items.now ∥₁ }
    requires room { length passes.old.of_blocks.items < vec_capacity passes.old.of_blocks }
    ensures row { IfOk result (λ slot. row_of slot
        ≡ made_row L.STATIC S.DROPS (length passes.old.of_blocks.items) items.now) }
    ensures stand { IfOk result (λ slot. Founds (stand_of (Some slot)) passes.old.of_blocks.items
        passes.new.of_blocks.items) }
    ensures refused { IfErr result (λ _. passes.new.of_blocks.items ≡ passes.old.of_blocks.items) }
{
    let mut pass = Pass::none();
    let Some(made) = S::Calls::try_read_as(alloc, items, &mut pass) else {
        unreachable!()
    };
    let window = match made {
        Ok(window) => window,
        Err(e) => return Err(e),
    };
    if stands_on_nothing::<L>(items.len()) {
        return Ok(Slot {
            window: Held::Read(window),
            block: None,
        });
    }
    let block = passes.keep(None, true, pass);
    Ok(Slot {
        window: Held::Read(window),
        block,
    })
}

/// A window that is read, over a copy of the items.
fn over_copy<S: Commands<A>, L: Layout, B: BufferMut<S::Item> + Drop, M: Drop, A: Allocator + Copy>(
    alloc: A,
    items: S::Items,
    next: usize,
    has_room: bool,
    passes: &mut Passes<A>,
) -> (TableReply<S, B, M, A>, Option<Slot<S, L, B, M, A>>)
where
    L::Writable: LayoutMut,
    S::Small: SmallOf<S, L, M, A>,
    ensures made { Makes ⟦<S as TableUnder<L, A>>⟧.setting next (command.Slice (S.items_in items))
        passes.old.of_blocks.items (seen_reply S.items_in S.items_in_box B.list result.0) result.1
        passes.new.of_blocks.items }
    ensures room { is_some result.1 ≡ true → has_room ≡ true }
{
    if !S::Calls::copies() {
        return (Reply::Kind, None);
    }
    if !has_room {
        return (Reply::Alloc, None);
    }
    if passes.reserve_for(true).is_err() {
        return (Reply::Alloc, None);
    }
    let items = vec_of::<S, A>(items);
    match reader(alloc, &items, passes) {
        Ok(slot) => (Reply::New(next), Some(slot)),
        Err(_) => (Reply::Alloc, None),
    }
}

/// A reader's slot, of a window over a vector with so many places.
fn vector<S: Commands<A>, L: Layout, B: BufferMut<S::Item> + Drop, M: Drop, A: Allocator + Copy>(
    alloc: A,
    items: Vec<S::Item, A>,
    passes: &mut Passes<A>,
) -> Result<Slot<S, L, B, M, A>, AllocError>
where
    L::Writable: LayoutMut,
    S::Small: SmallOf<S, L, M, A>,
    requires layout { L.ANY ≡ true }
    requires legal { ∥ S.is_legal items.items ∥₁ }
    requires room { length passes.old.of_blocks.items < vec_capacity passes.old.of_blocks }
    ensures row { IfOk result (λ slot. row_of slot ≡ vector_row L.STATIC S.DROPS
        (length passes.old.of_blocks.items) items.items (vec_capacity items)) }
    ensures enough { length items.items ≤ vec_capacity items }
    ensures stand { IfOk result (λ slot. Founds (stand_of (Some slot)) passes.old.of_blocks.items
        passes.new.of_blocks.items) }
    ensures refused { IfErr result (λ _. passes.new.of_blocks.items ≡ passes.old.of_blocks.items) }
{
    let places = items.capacity();
    let mut pass = Pass::none();
    let Ok(parts) = Parts::try_from_vec_as::<L>(alloc, items, &mut pass) else {
        return Err(AllocError);
    };
    let window = Held::Read(ArcSlice::from_parts(parts));
    if stands_on_nothing::<L>(places) {
        return Ok(Slot {
            window,
            block: None,
        });
    }
    let block = passes.keep(None, true, pass);
    Ok(Slot { window, block })
}

/// The vector that a list of a command wraps. Takes no memory.
fn wrapped<S: Commands<A>, A: Allocator>(items: S::Items) -> Vec<S::Item, A>
    ensures wraps { S.Items.wraps items result }
    ensures list { result.items ≡ S.items_in items }
    ensures legal { ∥ S.is_legal result.items ∥₁ }
{
    items.into_inner()
}

/// A window that is read, over a vector.
fn over_vec<S: Commands<A>, L: Layout, B: BufferMut<S::Item> + Drop, M: Drop, A: Allocator + Copy>(
    alloc: A,
    items: S::Items,
    next: usize,
    has_room: bool,
    passes: &mut Passes<A>,
) -> (TableReply<S, B, M, A>, Option<Slot<S, L, B, M, A>>)
where
    L::Writable: LayoutMut,
    S::Small: SmallOf<S, L, M, A>,
    ensures made { Makes ⟦<S as TableUnder<L, A>>⟧.setting next (command.Vec (S.items_in items))
        passes.old.of_blocks.items (seen_reply S.items_in S.items_in_box B.list result.0) result.1
        passes.new.of_blocks.items }
    ensures places { IfSome (option_map row_of result.1) (λ row. (n : ℕ)
        × WrapsPlaces S.Items.wraps items n × (row ≡ vector_row L.STATIC S.DROPS
        (length passes.old.of_blocks.items) (S.items_in items) n)) }
    ensures room { is_some result.1 ≡ true → has_room ≡ true }
{
    if !L::ANY {
        return (Reply::Kind, None);
    }
    if !has_room {
        return (Reply::Alloc, None);
    }
    if passes.reserve_for(true).is_err() {
        return (Reply::Alloc, None);
    }
    match vector(alloc, wrapped::<S, A>(items), passes) {
        Ok(slot) => (Reply::New(next), Some(slot)),
        Err(_) => (Reply::Alloc, None),
    }
}

/// A buffer has a place for each of its items. Does nothing: its contract is the law.
fn known_places<T, B: Buffer<T>>(given: &B)
    ensures { length (B.list given.now) ≤ B.places given.now }
{
    let _ = given.as_slice();
}

/// A reader's slot, of a window over a caller's buffer.
fn buffer_reader<
    S: Commands<A>,
    L: Layout,
    B: BufferMut<S::Item> + Drop,
    M: Drop,
    A: Allocator + Copy,
>(
    alloc: A,
    given: B,
    metadata: M,
    passes: &mut Passes<A>,
) -> Result<Slot<S, L, B, M, A>, AllocError>
where
    L::Writable: LayoutMut,
    S::Small: SmallOf<S, L, M, A>,
    requires layout { L.ANY ≡ true }
    requires call { S.Calls.calls.any_list ≡ true }
    requires room { length passes.old.of_blocks.items < vec_capacity passes.old.of_blocks }
    ensures row { IfOk result (λ slot. row_of slot ≡ buffer_row
        (length passes.old.of_blocks.items) (B.list given) (B.places given) metadata) }
    ensures enough { length (B.list given) ≤ B.places given }
    ensures stand { IfOk result (λ slot. Founds (stand_of (Some slot)) passes.old.of_blocks.items
        passes.new.of_blocks.items) }
    ensures refused { IfErr result (λ _. passes.new.of_blocks.items ≡ passes.old.of_blocks.items) }
{
    known_legal::<S, A>();
    known_places(&given);
    let mut pass = Pass::none();
    let Ok(parts) = Parts::try_from_buffer_as(alloc, given, Some(metadata), &mut pass) else {
        return Err(AllocError);
    };
    let window = Held::Read(ArcSlice::from_parts(parts));
    let block = passes.keep(None, true, pass);
    Ok(Slot { window, block })
}

/// A window that is read, over a caller's buffer.
fn over_buffer<
    S: Commands<A>,
    L: Layout,
    B: BufferMut<S::Item> + Drop,
    M: Drop,
    A: Allocator + Copy,
>(
    alloc: A,
    given: B,
    metadata: M,
    next: usize,
    has_room: bool,
    passes: &mut Passes<A>,
) -> (TableReply<S, B, M, A>, Option<Slot<S, L, B, M, A>>)
where
    L::Writable: LayoutMut,
    S::Small: SmallOf<S, L, M, A>,
    ensures made { Makes ⟦<S as TableUnder<L, A>>⟧.setting next
        (command.Buf (B.list given) metadata) passes.old.of_blocks.items
        (seen_reply S.items_in S.items_in_box B.list result.0) result.1 passes.new.of_blocks.items }
    ensures places { IfSome (option_map row_of result.1) (λ row. row ≡ buffer_row
        (length passes.old.of_blocks.items) (B.list given) (B.places given) metadata) }
    ensures room { is_some result.1 ≡ true → has_room ≡ true }
{
    if !S::Calls::any_list() {
        return (Reply::Kind, None);
    }
    if !L::ANY {
        return (Reply::Kind, None);
    }
    if !has_room {
        return (Reply::Alloc, None);
    }
    if passes.reserve_for(true).is_err() {
        return (Reply::Alloc, None);
    }
    match buffer_reader(alloc, given, metadata, passes) {
        Ok(slot) => (Reply::New(next), Some(slot)),
        Err(_) => (Reply::Alloc, None),
    }
}

/// A writer's slot, of a window over a caller's buffer.
fn buffer_writer<
    S: Commands<A>,
    L: Layout,
    B: BufferMut<S::Item> + Drop,
    M: Drop,
    A: Allocator + Copy,
>(
    alloc: A,
    given: B,
    metadata: M,
    passes: &mut Passes<A>,
) -> Result<Slot<S, L, B, M, A>, AllocError>
where
    L::Writable: LayoutMut,
    S::Small: SmallOf<S, L, M, A>,
    requires layout { L.Writable.ANY ≡ true }
    requires call { S.Calls.calls.any_list ≡ true }
    requires room { length passes.old.of_blocks.items < vec_capacity passes.old.of_blocks }
    ensures row { IfOk result (λ slot. row_of slot ≡ written_buffer_row
        (length passes.old.of_blocks.items) (B.list given) (B.places given) metadata) }
    ensures enough { length (B.list given) ≤ B.places given }
    ensures stand { IfOk result (λ slot. Founds (stand_of (Some slot)) passes.old.of_blocks.items
        passes.new.of_blocks.items) }
    ensures refused { IfErr result (λ _. passes.new.of_blocks.items ≡ passes.old.of_blocks.items) }
{
    known_legal::<S, A>();
    known_places(&given);
    let mut pass = Pass::none();
    let Ok(parts) = SoleParts::try_from_buffer_as(alloc, given, Some(metadata), &mut pass) else {
        return Err(AllocError);
    };
    let window = ArcSliceMut::from_parts(parts);
    let block = passes.keep(None, true, pass);
    Ok(Slot::written(window, block))
}

/// A window that is written, over a caller's buffer.
fn over_written_buffer<
    S: Commands<A>,
    L: Layout,
    B: BufferMut<S::Item> + Drop,
    M: Drop,
    A: Allocator + Copy,
>(
    alloc: A,
    given: B,
    metadata: M,
    next: usize,
    has_room: bool,
    passes: &mut Passes<A>,
) -> (TableReply<S, B, M, A>, Option<Slot<S, L, B, M, A>>)
where
    L::Writable: LayoutMut,
    S::Small: SmallOf<S, L, M, A>,
    ensures made { Makes ⟦<S as TableUnder<L, A>>⟧.setting next
        (command.MBuf (B.list given) metadata) passes.old.of_blocks.items
        (seen_reply S.items_in S.items_in_box B.list result.0) result.1 passes.new.of_blocks.items }
    ensures places { IfSome (option_map row_of result.1) (λ row. row ≡ written_buffer_row
        (length passes.old.of_blocks.items) (B.list given) (B.places given) metadata) }
    ensures room { is_some result.1 ≡ true → has_room ≡ true }
{
    if !S::Calls::any_list() {
        return (Reply::Kind, None);
    }
    if !L::Writable::ANY {
        return (Reply::Kind, None);
    }
    if !has_room {
        return (Reply::Alloc, None);
    }
    if passes.reserve_for(true).is_err() {
        return (Reply::Alloc, None);
    }
    match buffer_writer(alloc, given, metadata, passes) {
        Ok(slot) => (Reply::New(next), Some(slot)),
        Err(_) => (Reply::Alloc, None),
    }
}

/// A reader's slot, of a window over a caller's buffer behind an `Arc`.
fn raw_reader<
    S: Commands<A>,
    L: Layout,
    B: BufferMut<S::Item> + Drop,
    M: Drop,
    A: Allocator + Copy,
>(alloc: A, shared: Arc<B, A>, passes: &mut Passes<A>) -> Result<Slot<S, L, B, M, A>, AllocError>
where
    L::Writable: LayoutMut,
    S::Small: SmallOf<S, L, M, A>,
    requires layout { L.ANY ≡ true }
    requires call { S.Calls.calls.any_list ≡ true }
    requires room { length passes.old.of_blocks.items < vec_capacity passes.old.of_blocks }
    ensures row { IfOk result (λ slot. row_of slot ≡ raw_row L.RAW
        (length passes.old.of_blocks.items) (B.list (arc_value shared))) }
    ensures stand { IfOk result (λ slot. Founds (stand_of (Some slot)) passes.old.of_blocks.items
        passes.new.of_blocks.items) }
    ensures refused { IfErr result (λ _. passes.new.of_blocks.items ≡ passes.old.of_blocks.items) }
{
    known_legal::<S, A>();
    let mut pass = Pass::none();
    let Ok(parts) = Parts::try_from_raw_as::<L>(alloc, shared, &mut pass) else {
        return Err(AllocError);
    };
    let window = Held::Read(ArcSlice::from_parts(parts));
    if L::RAW {
        return Ok(Slot {
            window,
            block: None,
        });
    }
    let block = passes.keep(None, true, pass);
    Ok(Slot { window, block })
}

/// A window that is read, over a caller's buffer behind an `Arc`. The `Arc` is made too.
fn over_raw<S: Commands<A>, L: Layout, B: BufferMut<S::Item> + Drop, M: Drop, A: Allocator + Copy>(
    alloc: A,
    given: B,
    next: usize,
    has_room: bool,
    passes: &mut Passes<A>,
) -> (TableReply<S, B, M, A>, Option<Slot<S, L, B, M, A>>)
where
    L::Writable: LayoutMut,
    S::Small: SmallOf<S, L, M, A>,
    ensures made { Makes ⟦<S as TableUnder<L, A>>⟧.setting next (command.Raw (B.list given))
        passes.old.of_blocks.items (seen_reply S.items_in S.items_in_box B.list result.0) result.1
        passes.new.of_blocks.items }
    ensures room { is_some result.1 ≡ true → has_room ≡ true }
{
    if !S::Calls::any_list() {
        return (Reply::Kind, None);
    }
    if !L::ANY {
        return (Reply::Kind, None);
    }
    if !has_room {
        return (Reply::Alloc, None);
    }
    if passes.reserve_for(true).is_err() {
        return (Reply::Alloc, None);
    }
    let Ok(shared) = Arc::new(alloc, given) else {
        return (Reply::Alloc, None);
    };
    match raw_reader(alloc, shared, passes) {
        Ok(slot) => (Reply::New(next), Some(slot)),
        Err(_) => (Reply::Alloc, None),
    }
}

/// A window that is read, over a `'static` slice.
fn over_static<
    S: Commands<A>,
    L: Layout,
    B: BufferMut<S::Item> + Drop,
    M: Drop,
    A: Allocator + Copy,
>(
    alloc: A,
    items: S::Static,
    next: usize,
    has_room: bool,
    passes: &mut Passes<A>,
) -> (TableReply<S, B, M, A>, Option<Slot<S, L, B, M, A>>)
where
    L::Writable: LayoutMut,
    S::Small: SmallOf<S, L, M, A>,
    ensures made { Makes ⟦<S as TableUnder<L, A>>⟧.setting next (command.Static (S.static_in items))
        passes.old.of_blocks.items (seen_reply S.items_in S.items_in_box B.list result.0) result.1
        passes.new.of_blocks.items }
    ensures room { is_some result.1 ≡ true → has_room ≡ true }
{
    let _ = passes;
    if !L::STATIC {
        return (Reply::Kind, None);
    }
    if !has_room {
        return (Reply::Alloc, None);
    }
    (
        Reply::New(next),
        Some(Slot::on_static(alloc, S::lasting(items))),
    )
}

/// A window that is written, on nothing.
#[tactic(auto, using(crate::proofs::Made::own_items, crate::proofs::Made::made_so))]
fn idle<S: Commands<A>, L: Layout, B: BufferMut<S::Item> + Drop, M: Drop, A: Allocator + Copy>(
    alloc: A,
    next: usize,
    has_room: bool,
    passes: &mut Passes<A>,
) -> (TableReply<S, B, M, A>, Option<Slot<S, L, B, M, A>>)
where
    L::Writable: LayoutMut,
    S::Small: SmallOf<S, L, M, A>,
    ensures made { Makes ⟦<S as TableUnder<L, A>>⟧.setting next command.New
        passes.old.of_blocks.items (seen_reply S.items_in S.items_in_box B.list result.0) result.1
        passes.new.of_blocks.items }
    ensures room { is_some result.1 ≡ true → has_room ≡ true }
{
    if !has_room {
        return (Reply::Alloc, None);
    }
    let window = ArcSliceMut::new(alloc);
    (
        Reply::New(next),
        Some(writer(window, 0, Pass::none(), passes)),
    )
}

/// A window that is written, without items, with so many places.
#[tactic(auto, using(crate::proofs::Made::own_items, crate::proofs::Made::made_so))]
fn with_places<
    S: Commands<A>,
    L: Layout,
    B: BufferMut<S::Item> + Drop,
    M: Drop,
    A: Allocator + Copy,
>(
    alloc: A,
    places: usize,
    next: usize,
    has_room: bool,
    passes: &mut Passes<A>,
) -> (TableReply<S, B, M, A>, Option<Slot<S, L, B, M, A>>)
where
    L::Writable: LayoutMut,
    S::Small: SmallOf<S, L, M, A>,
    ensures made { Makes ⟦<S as TableUnder<L, A>>⟧.setting next (command.Cap places)
        passes.old.of_blocks.items (seen_reply S.items_in S.items_in_box B.list result.0) result.1
        passes.new.of_blocks.items }
    ensures room { is_some result.1 ≡ true → has_room ≡ true }
{
    if !has_room {
        return (Reply::Alloc, None);
    }
    if passes.reserve_for(true).is_err() {
        return (Reply::Alloc, None);
    }
    let mut pass = Pass::none();
    let Ok(window) = ArcSliceMut::try_with_capacity_as(alloc, places, &mut pass) else {
        return (Reply::Alloc, None);
    };
    (Reply::New(next), Some(writer(window, places, pass, passes)))
}

/// A window that is written, over so many zeros.
#[tactic(auto, using(crate::proofs::Made::own_items, crate::proofs::Made::made_so))]
fn over_zeros<
    S: Commands<A>,
    L: Layout,
    B: BufferMut<S::Item> + Drop,
    M: Drop,
    A: Allocator + Copy,
>(
    alloc: A,
    count: usize,
    next: usize,
    has_room: bool,
    passes: &mut Passes<A>,
) -> (TableReply<S, B, M, A>, Option<Slot<S, L, B, M, A>>)
where
    L::Writable: LayoutMut,
    S::Small: SmallOf<S, L, M, A>,
    ensures made { Makes ⟦<S as TableUnder<L, A>>⟧.setting next (command.Zero count)
        passes.old.of_blocks.items (seen_reply S.items_in S.items_in_box B.list result.0) result.1
        passes.new.of_blocks.items }
    ensures room { is_some result.1 ≡ true → has_room ≡ true }
{
    if !S::Zero::has_zero() {
        return (Reply::Kind, None);
    }
    if !has_room {
        return (Reply::Alloc, None);
    }
    if passes.reserve_for(true).is_err() {
        return (Reply::Alloc, None);
    }
    let mut pass = Pass::none();
    let Some(made) = S::Zero::try_zeroed_as(alloc, count, &mut pass) else {
        unreachable!()
    };
    let Ok(window) = made else {
        return (Reply::Alloc, None);
    };
    (Reply::New(next), Some(writer(window, count, pass, passes)))
}

/// A window that is written, over a copy of the items.
#[tactic(auto, using(crate::proofs::Made::own_items, crate::proofs::Made::made_so))]
fn over_written_copy<
    S: Commands<A>,
    L: Layout,
    B: BufferMut<S::Item> + Drop,
    M: Drop,
    A: Allocator + Copy,
>(
    alloc: A,
    items: S::Items,
    next: usize,
    has_room: bool,
    passes: &mut Passes<A>,
) -> (TableReply<S, B, M, A>, Option<Slot<S, L, B, M, A>>)
where
    L::Writable: LayoutMut,
    S::Small: SmallOf<S, L, M, A>,
    ensures made { Makes ⟦<S as TableUnder<L, A>>⟧.setting next (command.MSlice (S.items_in items))
        passes.old.of_blocks.items (seen_reply S.items_in S.items_in_box B.list result.0) result.1
        passes.new.of_blocks.items }
    ensures room { is_some result.1 ≡ true → has_room ≡ true }
{
    if !S::Calls::copies() {
        return (Reply::Kind, None);
    }
    if !has_room {
        return (Reply::Alloc, None);
    }
    if passes.reserve_for(true).is_err() {
        return (Reply::Alloc, None);
    }
    let items = vec_of::<S, A>(items);
    let mut pass = Pass::none();
    let Some(made) = S::Calls::try_written_as(alloc, &items, &mut pass) else {
        unreachable!()
    };
    let Ok(window) = made else {
        return (Reply::Alloc, None);
    };
    (
        Reply::New(next),
        Some(writer(window, items.len(), pass, passes)),
    )
}

/// Makes the window of a command that brings what it is made of. It answers the reply, and the
/// window if one is made. The caller puts that under the number `next`.
///
/// # Errors
///
/// As a reply, without a window. What the command brought is dropped, and no history begins.
///
/// - `Kind` where the kind or the layout lacks the command, and for a command on a window.
/// - `Alloc` where the table has no room for the window, or memory is refused.
///
/// # Allocates
///
/// What the call takes that makes such a window, and for the pass of a block.
///
/// # History
///
/// Where a block is made its history begins.
pub fn make<S: Commands<A>, L: Layout, B: BufferMut<S::Item> + Drop, M: Drop, A: Allocator + Copy>(
    alloc: A,
    command: TableCmd<S, B, M, A>,
    next: usize,
    has_room: bool,
    passes: &mut Passes<A>,
) -> (TableReply<S, B, M, A>, Option<Slot<S, L, B, M, A>>)
where
    L::Writable: LayoutMut,
    S::Small: SmallOf<S, L, M, A>,
    ensures made { Makes ⟦<S as TableUnder<L, A>>⟧.setting next
        (map_command S.items_in S.static_in B.list command) passes.old.of_blocks.items
        (seen_reply S.items_in S.items_in_box B.list result.0) result.1 passes.new.of_blocks.items }
    ensures places { HasOwnPlaces (WrapsPlaces S.Items.wraps) S.items_in B.list B.places
        ⟦<S as TableUnder<L, A>>⟧.setting (length passes.old.of_blocks.items) command
        (option_map row_of result.1) }
    ensures room { is_some result.1 ≡ true → has_room ≡ true }
{
    match command {
        Cmd::Slice(items) => over_copy(alloc, items, next, has_room, passes),
        Cmd::Small(items) => over_few(alloc, items, next, has_room, passes),
        Cmd::Vec(items) => over_vec(alloc, items, next, has_room, passes),
        Cmd::Static(items) => over_static(alloc, items, next, has_room, passes),
        Cmd::Raw(given) => over_raw(alloc, given, next, has_room, passes),
        Cmd::Buf { buffer, metadata } => {
            over_buffer(alloc, buffer, metadata, next, has_room, passes)
        }
        Cmd::MBuf { buffer, metadata } => {
            over_written_buffer(alloc, buffer, metadata, next, has_room, passes)
        }
        Cmd::New => idle(alloc, next, has_room, passes),
        Cmd::Cap { places } => with_places(alloc, places, next, has_room, passes),
        Cmd::Zero { count } => over_zeros(alloc, count, next, has_room, passes),
        Cmd::MSlice(items) => over_written_copy(alloc, items, next, has_room, passes),
        // The other commands are on a window.
        _ => (Reply::Kind, None),
    }
}

mod small;
