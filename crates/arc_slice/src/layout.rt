//! Layouts: on what a window may stand.

pub use arc_block::layout::{
    AnyBufferLayout, ArcLayout, BoxedSliceLayout, CloneNoAllocLayout, DefaultLayout,
    DefaultLayoutMut, FromLayout, Layout, LayoutMut, RawLayout, StaticLayout,
    TruncateNoAllocLayout, VecLayout,
};
