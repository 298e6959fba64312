//! The two sides of a split window.
ghost use Rattle.std.specs.Prelude.{◌≡◌, IfErr, IfOk};
ghost use Rattle.arc_buffer.specs.Slice.{IsEdge};
ghost use Rattle.arc_parts.specs.Steps.{IsPassAt, Refuses};
ghost use Rattle.arc_slots.specs.Parts.{is_end, split_at};
ghost use Rattle.arc_slots.specs.Splits.{SplitsPart, made_place};

use crate::passes::Passes;
use crate::slot::{Slot, part_block};
use crate::window::Held;
use arc_block::layout::{Layout, LayoutMut};
use arc_buffer::buffer::BufferMut;
use arc_buffer::kinds::Slice;
use arc_kinds::kinds::{SmallOf, TableKind};
use arc_owners::error::OwnerError;
use arc_owners::mark::Whole;
use arc_owners::owners::Pass;
use arc_read::slice::ArcSlice;
use std::alloc::Allocator;
use std::sync::Wait;

/// Which part of a split window is handed out as another one.
#[derive(Clone, Copy)]
pub enum Part {
    /// The items from this place on, which the window loses.
    Back(usize),
    /// The items before this place, which the window loses.
    Front(usize),
}

impl Part {
    /// The place at which the window is split.
    pub fn at(self) -> usize
        ensures { result ≡ split_at self }
    {
        match self {
            Part::Back(at) | Part::Front(at) => at,
        }
    }

    /// Whether the split is at the end of a window with `len` items at which nothing is left.
    fn is_end(self, len: usize) -> bool
        ensures { result ≡ is_end len self }
    {
        match self {
            Part::Back(at) => at == 0,
            Part::Front(at) => at == len,
        }
    }
}

/// Splits a window that is read, and answers the part that is handed out.
fn split_window<
    S: TableKind,
    L: Layout,
    B: BufferMut<S::Item> + Drop,
    M: Drop,
    A: Allocator + Copy,
>(
    window: &mut ArcSlice<S, L, B, M, A, Whole>,
    rt: &impl Wait,
    part: Part,
    pass: &mut Pass<Whole>,
) -> Result<ArcSlice<S, L, B, M, A, Whole>, OwnerError>
    requires at { IsEdge S.boundary window.old.items (split_at part) }
    requires pass { IsPassAt window.old.place pass.old }
    ensures made { IfOk result (λ handed. SplitsPart L.STATIC part window.old
        pass.old pass.new window.new handed) }
    ensures kept { IfErr result (λ _. window.new ≡ window.old) }
    ensures refused { IfErr result (λ e. Refuses L.clone_wants
        (made_place L.STATIC part window.old) pass.old pass.new e) }
{
    match part {
        Part::Back(at) => window.try_split_off_as(rt, at, pass),
        Part::Front(at) => window.try_split_to_as(rt, at, pass),
    }
}

impl<S: TableKind, L: Layout, B: BufferMut<S::Item> + Drop, M: Drop, A: Allocator + Copy> Slot<
    S,
    L,
    B,
    M,
    A,
>
where
    L::Writable: LayoutMut,
    S::Small: SmallOf<S, L, M, A>,
{
    ghost use Rattle.std.specs.Prelude.{true, false, Some};
    ghost use Rattle.arc_block.specs.Table.{reader};
    ghost use Rattle.arc_slots.specs.Calls.{RefusesAt};
    ghost use Rattle.arc_slots.specs.Parts.{is_itself, part_row, rest_of};
    ghost use Rattle.arc_slots.specs.Slots.{row_of, stand_of};
    ghost use Rattle.arc_slots.specs.Splits.{IsSplit};
    ghost use Rattle.arc_slots.specs.Stands.{HasPassFor};

    /// Splits a window that is read, and hands out the part. Where the part is all of the window,
    /// the window itself is handed out, and a new one without items stays under its number.
    ///
    /// # Errors
    ///
    /// Those of `try_clone`; none where one part has no items and the layout has static data. The
    /// window is then as before.
    ///
    /// # History
    ///
    /// On a block that counts its owners: Up, or Full where it is refused. Nothing where one part
    /// has no items and the layout has static data.
    pub fn try_part(
        &mut self,
        rt: &impl Wait,
        part: Part,
        passes: &mut Passes<A>,
    ) -> Result<Self, OwnerError>
        requires reads { self.old.role ≡ reader }
        requires at { IsEdge S.boundary self.old.window.items (split_at part) }
        requires pass { HasPassFor passes.old.of_blocks.items (stand_of (Some self.old)) }
        ensures itself { IfOk result (λ handed. is_itself (row_of self.old) part ≡ true
            → IsSplit self.old handed self.new (row_of self.old)
            (part_row L.STATIC (row_of self.old) part)
            passes.old.of_blocks.items passes.new.of_blocks.items) }
        ensures beside { IfOk result (λ handed. is_itself (row_of self.old) part ≡ false
            → IsSplit self.old self.new handed (rest_of (row_of self.old) part)
            (part_row L.STATIC (row_of self.old) part)
            passes.old.of_blocks.items passes.new.of_blocks.items) }
        ensures kept { IfErr result (λ _. self.new ≡ self.old) }
        ensures refused { IfErr result (RefusesAt L.clone_wants
            (part_row L.STATIC (row_of self.old) part).place (stand_of (Some self.old))
            passes.old.of_blocks.items passes.new.of_blocks.items) }
    {
        let block = self.block;
        let Held::Read(window) = &mut self.window else {
            unreachable!()
        };
        let is_end = part.is_end(window.len());
        let mut pass = passes.lend(block);
        let made = split_window(window, rt, part, &mut pass);
        passes.give_back(block, pass);
        let handed = match made {
            Ok(handed) => handed,
            Err(e) => return Err(e),
        };
        if is_end {
            self.block = part_block::<L>(block, window.len());
            let window = Held::Read(handed);
            return Ok(Slot { window, block });
        }
        let block = part_block::<L>(block, handed.len());
        let window = Held::Read(handed);
        Ok(Slot { window, block })
    }
}
