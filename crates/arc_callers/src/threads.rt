//! Values that go to other threads. A type that may not go there is refused when its caller is
//! proved.
use arc_block::static_slice::StaticSlice;
use arc_memory::{
    Allocation, CutMemory, EndedLifetime, FrozenPlaces, KeptPlaces, LentPlaces, LifetimeToken,
    OpenPlaces, Places, PlacesInheritance, WriterMemory,
};
use arc_owners::mark::Open;
use arc_owners::owners::CountedBox;
use std::alloc::Global;

/// An owner of memory that is lent for the lease of a block's owners.
type LentBox = CountedBox<KeptPlaces<u64, Global>, Global, 3, Open>;

fn sent<T: Send>() {}

fn shared<T: Send + Sync>() {}

/// Parts of memory that is lent, what is left of them, and that they come back; a writer's memory.
pub fn parts_go_to_other_threads() {
    sent::<LentPlaces<u64>>();
    sent::<OpenPlaces<u64>>();
    sent::<PlacesInheritance<u64>>();
    sent::<EndedLifetime>();
    sent::<WriterMemory<u64, Global>>();
    sent::<CutMemory<u64, Global>>();
    sent::<StaticSlice<u8>>();
}

/// Memory that is taken apart, what is frozen in it, and an owner of it.
pub fn memory_is_shared_by_threads() {
    shared::<Allocation<u64, Global>>();
    shared::<Places<u64>>();
    shared::<FrozenPlaces<u64>>();
    shared::<LifetimeToken>();
    shared::<LentBox>();
}
