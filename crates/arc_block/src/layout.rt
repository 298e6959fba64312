//! Layouts: on what a window may stand.
//!
//! | Layout | Vectors and buffers | An `Arc` of the caller's | Nothing, static data | `is_lone` |
//! |---|---|---|---|---|
//! | `ArcLayout<ANY, STATIC>` | if `ANY` | counted, if `ANY` | if `STATIC` | never |
//! | `BoxedSliceLayout` | yes | counted | yes | where the length is the capacity |
//! | `VecLayout` | yes | counted | yes | always |
//! | `RawLayout` | yes | a block by itself | yes | never |
//!
//! All hold native blocks. Under every layout a vector is counted when its window is made, whatever
//! `is_lone` says. Contracts alone use it: where it may hold, they let a clone of a window over a
//! vector want memory (`clone_wants`), which no clone does.
ghost use Rattle.std.specs.Prelude.{◌≡◌, ◌==◌, ◌&&◌, ℕ, Bool, true, false, refl};
ghost use Rattle.arc_block.specs.Block.{Sort};
ghost use Rattle.arc_block.specs.Layouts.{clones_want, never_wanted, never, always, where_full};
ghost use Rattle.arc_block.specs.Layouts.{never_by_itself};

mod sealed {
    /// A trait that no other crate can implement.
    pub trait Sealed {}
}

/// A layout of windows: on what they may stand. This module has all layouts.
pub trait Layout: sealed::Sealed {
    /// The layout of the windows that become writable: one with `LayoutMut`.
    type Writable;

    /// Whether windows may stand on nothing, or on static data.
    ghost STATIC: { Bool };

    /// Whether a block may be a vector, a caller's buffer, or an `Arc` of one.
    ghost ANY: { Bool };

    /// Whether an `Arc` of the caller's is a block by itself, and isn't counted once more.
    ghost RAW: { Bool };

    /// What `is_lone` answers.
    ghost lone: { ℕ → ℕ → Bool };

    /// Whether contracts let a clone of a window on a block of this sort be refused for memory.
    ghost clone_wants: { Sort → Bool };

    /// That is so on a vector, where `is_lone` says yes of one without places, and on an `Arc` that
    /// is a block by itself. On other blocks it isn't.
    ghost wants: { (sort : Sort)
        → Self.clone_wants sort ≡ clones_want (Self.lone 0 0) Self.RAW sort };

    /// An `Arc` is a block by itself only where blocks may be of a caller's making.
    ghost raw_is_any: { Self.RAW ≡ true → Self.ANY ≡ true };

    /// Whether windows may stand on nothing, or on static data.
    const STATIC: bool;

    /// Whether a block may be a vector, a caller's buffer, or an `Arc` of one.
    const ANY: bool;

    /// Whether an `Arc` of the caller's is a block by itself, and isn't counted once more.
    const RAW: bool;

    /// Whether the layout is one that may keep a vector of this length and capacity without a count
    /// until its window is cloned. No code asks this: each vector is counted when its window is
    /// made.
    fn is_lone(len: usize, capacity: usize) -> bool
        ensures { result ≡ lone len capacity };
}

/// Layouts of writable windows: those that are their own `Writable`.
pub trait LayoutMut: Layout<Writable = Self> {}

/// Layouts under which a block may be a vector, a caller's buffer, or an `Arc` of one.
pub trait AnyBufferLayout: Layout {
    ghost has_any: { Self.ANY ≡ true };
}

/// Layouts under which windows may stand on nothing, or on static data.
pub trait StaticLayout: Layout {
    ghost has_static: { Self.STATIC ≡ true };
}

/// Layouts under which contracts let no clone be refused for memory.
pub trait CloneNoAllocLayout: Layout {
    ghost clones_without_memory: { (sort : Sort) → Self.clone_wants sort ≡ false };
}

/// Layouts under which `truncate` takes no memory: all.
pub trait TruncateNoAllocLayout: Layout {}

impl<L: Layout> TruncateNoAllocLayout for L {}

/// Layouts to which windows of another one may go: all. A window whose block or static data the new
/// layout doesn't hold is handed back.
pub trait FromLayout<L: Layout>: Layout {}

impl<L: Layout, M: Layout> FromLayout<L> for M {}

/// The default layout: a window stands on a block that counts its owners. `ANY` says whether that
/// may be a vector, a caller's buffer, or an `Arc` of one. `STATIC` says whether windows may stand
/// on nothing, or on static data.
#[derive(Clone, Copy, Debug, PartialEq, Eq)]
pub struct ArcLayout<const ANY: bool, const STATIC: bool>;

impl<const ANY: bool, const STATIC: bool> sealed::Sealed for ArcLayout<ANY, STATIC> {}

impl<const ANY: bool, const STATIC: bool> Layout for ArcLayout<ANY, STATIC> {
    type Writable = ArcLayout<ANY, STATIC>;

    ghost STATIC = { STATIC };

    ghost ANY = { ANY };

    ghost RAW = { false };

    ghost lone = { never };

    ghost clone_wants = { λ _. false };

    ghost wants = { never_wanted };

    ghost raw_is_any = { never_by_itself };

    const STATIC: bool = STATIC;

    const ANY: bool = ANY;

    const RAW: bool = false;

    fn is_lone(len: usize, capacity: usize) -> bool {
        let _ = (len, capacity);
        false
    }
}

impl<const ANY: bool, const STATIC: bool> LayoutMut for ArcLayout<ANY, STATIC> {}

impl<const STATIC: bool> AnyBufferLayout for ArcLayout<true, STATIC> {
    ghost has_any = { refl };
}

impl<const ANY: bool> StaticLayout for ArcLayout<ANY, true> {
    ghost has_static = { refl };
}

impl<const ANY: bool, const STATIC: bool> CloneNoAllocLayout for ArcLayout<ANY, STATIC> {
    ghost clones_without_memory = { λ _. refl };
}

/// As `ArcLayout<true, true>`. Its `is_lone` says yes of a vector whose length is its capacity, as
/// a boxed slice's is.
#[derive(Clone, Copy, Debug, PartialEq, Eq)]
pub struct BoxedSliceLayout;

impl sealed::Sealed for BoxedSliceLayout {}

impl Layout for BoxedSliceLayout {
    type Writable = DefaultLayoutMut;

    ghost STATIC = { true };

    ghost ANY = { true };

    ghost RAW = { false };

    ghost lone = { where_full };

    ghost clone_wants = { clones_want true false };

    ghost wants = { λ _. refl };

    ghost raw_is_any = { λ _. refl };

    const STATIC: bool = true;

    const ANY: bool = true;

    const RAW: bool = false;

    fn is_lone(len: usize, capacity: usize) -> bool {
        len == capacity
    }
}

impl AnyBufferLayout for BoxedSliceLayout {
    ghost has_any = { refl };
}

impl StaticLayout for BoxedSliceLayout {
    ghost has_static = { refl };
}

/// As `ArcLayout<true, true>`. Its `is_lone` says yes of every vector.
#[derive(Clone, Copy, Debug, PartialEq, Eq)]
pub struct VecLayout;

impl sealed::Sealed for VecLayout {}

impl Layout for VecLayout {
    type Writable = VecLayout;

    ghost STATIC = { true };

    ghost ANY = { true };

    ghost RAW = { false };

    ghost lone = { always };

    ghost clone_wants = { clones_want true false };

    ghost wants = { λ _. refl };

    ghost raw_is_any = { λ _. refl };

    const STATIC: bool = true;

    const ANY: bool = true;

    const RAW: bool = false;

    fn is_lone(len: usize, capacity: usize) -> bool {
        let _ = (len, capacity);
        true
    }
}

impl LayoutMut for VecLayout {}

impl AnyBufferLayout for VecLayout {
    ghost has_any = { refl };
}

impl StaticLayout for VecLayout {
    ghost has_static = { refl };
}

/// As `ArcLayout<true, true>`, but an `Arc` of the caller's is a block by itself.
#[derive(Clone, Copy, Debug, PartialEq, Eq)]
pub struct RawLayout;

impl sealed::Sealed for RawLayout {}

impl Layout for RawLayout {
    type Writable = DefaultLayoutMut;

    ghost STATIC = { true };

    ghost ANY = { true };

    ghost RAW = { true };

    ghost lone = { never };

    ghost clone_wants = { clones_want false true };

    ghost wants = { λ _. refl };

    ghost raw_is_any = { λ _. refl };

    const STATIC: bool = true;

    const ANY: bool = true;

    const RAW: bool = true;

    fn is_lone(len: usize, capacity: usize) -> bool {
        let _ = (len, capacity);
        false
    }
}

impl AnyBufferLayout for RawLayout {
    ghost has_any = { refl };
}

impl StaticLayout for RawLayout {
    ghost has_static = { refl };
}

/// The layout of windows that name none.
pub type DefaultLayout = ArcLayout<true, true>;

/// The layout of writable windows that name none.
pub type DefaultLayoutMut = ArcLayout<true, true>;

/// Where a window goes that changes its layout.
#[derive(Clone, Copy, Debug, PartialEq, Eq, Drop)]
pub enum Move {
    /// It stays where it is.
    Stays,
    /// It is handed back.
    HandedBack,
    /// To a new native block of no places.
    NewEmpty,
    /// To a new block, which keeps and counts the `Arc` on which it stands.
    NewCount,
    /// To a clone of the `Arc` that its block keeps; it leaves the block.
    LeavesCount,
}

/// Whether a window that is made with `len` items stands on nothing: one with none does, where the
/// layout has static data.
pub fn stands_on_nothing<L: Layout>(len: usize) -> bool
    ensures { result ≡ (L.STATIC && (len == 0)) }
{
    L::STATIC && len == 0
}
