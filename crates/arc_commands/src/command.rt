//! The commands on a table, and its replies.
use arc_owners::error::{OwnerError, RangeError, TryReserveError};
use std::marker::PhantomData;

/// The types of what commands carry.
pub trait Carried {
    /// A list of items.
    type Items;

    /// A `'static` slice.
    type Static;

    /// A buffer of a caller's.
    type Buffer;

    /// Metadata.
    type Meta;

    /// An item.
    type Item;
}

/// Commands that carry these: lists X, `'static` slices F, buffers B, metadata M and items T.
pub struct Carries<X, F, B, M, T> {
    of: PhantomData<(X, F, B, M, T)>,
}

impl<X, F, B, M, T> Carried for Carries<X, F, B, M, T> {
    type Items = X;

    type Static = F;

    type Buffer = B;

    type Meta = M;

    type Item = T;
}

/// A command, which carries values of these types. It names windows by their numbers.
#[derive(Debug, Drop)]
pub enum Cmd<C: Carried> {
    /// A window over a copy of these items.
    Slice(C::Items),
    /// A small window over a copy of these items, which has them in itself where they are few.
    Small(C::Items),
    /// A window over all items of a vector.
    Vec(C::Items),
    /// A window over a `'static` slice.
    Static(C::Static),
    /// A window over all items of a buffer behind an `Arc`.
    Raw(C::Buffer),
    /// A window over all items of a buffer, which it only reads.
    Buf {
        buffer: C::Buffer,
        metadata: C::Meta,
    },
    /// A window that is written, over all items of a buffer.
    MBuf {
        buffer: C::Buffer,
        metadata: C::Meta,
    },
    /// A window that is written, without items and places.
    New,
    /// A window that is written, without items, with so many places.
    Cap {
        places: usize,
    },
    /// A window that is written, over so many zeros.
    Zero {
        count: usize,
    },
    /// A window that is written, over a copy of these items.
    MSlice(C::Items),
    /// Another window with the same items at the same place.
    Clone {
        window: usize,
    },
    /// A window over the part from `start` to `end` of another.
    Sub {
        window: usize,
        start: usize,
        end: usize,
    },
    /// Asks whether a window is the only owner of its block.
    Uniq {
        window: usize,
    },
    /// Asks for the metadata of a window's block.
    Meta {
        window: usize,
    },
    /// Asks for the items of a window.
    Show {
        window: usize,
    },
    /// Splits a window at `at`, and hands out the back.
    Off {
        window: usize,
        at: usize,
    },
    /// Splits a window at `at`, and hands out the front.
    To {
        window: usize,
        at: usize,
    },
    /// Asks how many items a window has.
    Len {
        window: usize,
    },
    /// Asks how many places a window that is written has.
    Room {
        window: usize,
    },
    /// Makes room for so many items more in a window that is written.
    Res {
        window: usize,
        additional: usize,
    },
    /// Appends an item to a window that is written.
    Push {
        window: usize,
        item: C::Item,
    },
    /// Appends these items to a window that is written.
    Ext {
        window: usize,
        items: C::Items,
    },
    /// Makes room for so many items more in a window that is written, if that takes no memory.
    Rec {
        window: usize,
        additional: usize,
    },
    /// Turns a window that is written into one that is read.
    Freeze {
        window: usize,
    },
    /// Turns a window that is read into a sole writer's, if it is alone on its block, or has no
    /// items and stands on no block.
    Mut {
        window: usize,
    },
    /// Turns a sole writer's window into one of several writers'.
    Share {
        window: usize,
    },
    /// Turns a window of one of several writers, if it is alone, into a sole writer's.
    Unique {
        window: usize,
    },
    /// Puts the places of another window of the same block behind those of a window that has an
    /// item at each of its own, where the other's places begin where these end. Then the other
    /// window is gone.
    Join {
        window: usize,
        other: usize,
    },
    /// Takes the first `by` items off a window.
    Adv {
        window: usize,
        by: usize,
    },
    /// Keeps the first `len` items of a window, or all where it has no more.
    Trunc {
        window: usize,
        len: usize,
    },
    /// Ends a window.
    Drop {
        window: usize,
    },
    /// Takes the vector on which a window stands, with the window's items, and ends the window.
    Take {
        window: usize,
    },
    /// Takes the vector on which a window stands, as a box, and ends the window.
    TakeBox {
        window: usize,
    },
    /// Takes the buffer on which a window stands, and ends the window.
    TakeBuf {
        window: usize,
    },
    /// Takes the `Arc` of a buffer on which a window stands, and ends the window.
    TakeRaw {
        window: usize,
    },
    /// Takes the items of a window that stands on no block, and ends the window.
    TakeStatic {
        window: usize,
    },
}

impl<C: Carried> Cmd<C> {
    ghost use Rattle.std.specs.Prelude.{◌≡◌};
    ghost use Rattle.arc_commands.specs.Step.{makes_beside, may_end, other_of, window_of};

    /// The number of its window, or `None` for a command that makes a window of what it brings. For
    /// a join it is that of the first one.
    pub fn window(&self) -> Option<usize>
        ensures { result ≡ window_of self.now }
    {
        match self {
            Cmd::Slice(_) => None,
            Cmd::Small(_) => None,
            Cmd::Vec(_) => None,
            Cmd::Static(_) => None,
            Cmd::Raw(_) => None,
            Cmd::Buf { .. } => None,
            Cmd::MBuf { .. } => None,
            Cmd::New => None,
            Cmd::Cap { .. } => None,
            Cmd::Zero { .. } => None,
            Cmd::MSlice(_) => None,
            Cmd::Clone { window } => Some(*window),
            Cmd::Sub { window, .. } => Some(*window),
            Cmd::Uniq { window } => Some(*window),
            Cmd::Meta { window } => Some(*window),
            Cmd::Show { window } => Some(*window),
            Cmd::Off { window, .. } => Some(*window),
            Cmd::To { window, .. } => Some(*window),
            Cmd::Len { window } => Some(*window),
            Cmd::Room { window } => Some(*window),
            Cmd::Res { window, .. } => Some(*window),
            Cmd::Push { window, .. } => Some(*window),
            Cmd::Ext { window, .. } => Some(*window),
            Cmd::Rec { window, .. } => Some(*window),
            Cmd::Freeze { window } => Some(*window),
            Cmd::Mut { window } => Some(*window),
            Cmd::Share { window } => Some(*window),
            Cmd::Unique { window } => Some(*window),
            Cmd::Join { window, .. } => Some(*window),
            Cmd::Adv { window, .. } => Some(*window),
            Cmd::Trunc { window, .. } => Some(*window),
            Cmd::Drop { window } => Some(*window),
            Cmd::Take { window } => Some(*window),
            Cmd::TakeBox { window } => Some(*window),
            Cmd::TakeBuf { window } => Some(*window),
            Cmd::TakeRaw { window } => Some(*window),
            Cmd::TakeStatic { window } => Some(*window),
        }
    }

    /// The number of the second window of a command on two.
    pub fn other(&self) -> Option<usize>
        ensures { result ≡ other_of self.now }
    {
        match self {
            Cmd::Join { other, .. } => Some(*other),
            _ => None,
        }
    }

    /// Whether it makes another window beside its own.
    pub fn makes_beside(&self) -> bool
        ensures { result ≡ makes_beside self.now }
    {
        matches!(
            self,
            Cmd::Clone { .. } | Cmd::Sub { .. } | Cmd::Off { .. } | Cmd::To { .. }
        )
    }

    /// Whether its window may be gone afterwards.
    #[inline(always)]
    pub fn may_end(&self) -> bool
        ensures { result ≡ may_end self.now }
    {
        matches!(
            self,
            Cmd::Drop { .. }
                | Cmd::Take { .. }
                | Cmd::TakeBox { .. }
                | Cmd::TakeBuf { .. }
                | Cmd::TakeRaw { .. }
                | Cmd::TakeStatic { .. }
        )
    }
}

/// The types of what replies carry.
pub trait Given {
    /// Items that are shown.
    type Shown;

    /// A vector.
    type Vector;

    /// A box.
    type Boxed;

    /// A buffer of a caller's.
    type Buffer;

    /// An `Arc` of a caller's buffer.
    type Raw;

    /// A `'static` slice.
    type Static;

    /// Metadata.
    type Meta;
}

/// Replies that carry these: items X that are shown, vectors V, boxes D, buffers B, `Arc`s R of
/// buffers, `'static` slices F, and metadata M.
pub struct Gives<X, V, D, B, R, F, M> {
    of: PhantomData<(X, V, D, B, R, F, M)>,
}

impl<X, V, D, B, R, F, M> Given for Gives<X, V, D, B, R, F, M> {
    type Shown = X;

    type Vector = V;

    type Boxed = D;

    type Buffer = B;

    type Raw = R;

    type Static = F;

    type Meta = M;
}

/// The reply to a command, which carries values of these types.
#[derive(Debug, Drop)]
pub enum Reply<G: Given> {
    /// A new window has this number.
    New(usize),
    /// It is done.
    Ok,
    /// The window is the only owner of its block; or it has the room.
    Yes,
    /// The window isn't the only owner of its block, or stands on no block or on an `Arc`, or the
    /// caller's buffer there says that it is shared; or the window hasn't the room.
    No,
    /// The items of the window.
    Items(G::Shown),
    /// The vector on which the window stood. The window is gone.
    Vec(G::Vector),
    /// That vector as a box. The window is gone.
    Boxed(G::Boxed),
    /// The buffer on which the window stood. The window is gone.
    Buffer(G::Buffer),
    /// The `Arc` of a buffer on which the window stood. The window is gone.
    Raw(G::Raw),
    /// The `'static` slice on which the window stood, or no items where it stood on nothing. The
    /// window is gone.
    Static(G::Static),
    /// So many items, or places.
    Number(usize),
    /// The metadata of the window's block.
    Meta(G::Meta),
    /// The window's block has no metadata, or the window stands on no block.
    None,
    /// No window has this number.
    NoWindow,
    /// The command isn't for a window of this role, or the kind or the layout lacks it.
    Kind,
    /// What the window stands on doesn't allow it, or memory for it is refused. The window is as it
    /// was.
    Refused,
    /// The range isn't one of the window.
    Range(RangeError),
    /// A new owner of the block is refused, or memory for the block to which one of several writers
    /// would move. The window is as it was.
    Owner(OwnerError),
    /// Room for the items is refused. The window is as it was.
    Reserve(TryReserveError),
    /// Memory is refused. Nothing is changed.
    Alloc,
}
