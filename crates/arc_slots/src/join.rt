//! Two windows of several writers, joined.
ghost use Rattle.std.specs.Prelude.{◌≡◌, ◌==◌, ℕ, true, false, Bool, IfErr, IfSome, OnOk};
ghost use Rattle.std.specs.Prelude.{IfNone, None, Some};
ghost use Rattle.arc_owners.specs.count.Calls.{Leaves};
ghost use Rattle.arc_commands.specs.Blocks.{is_several};
ghost use Rattle.arc_commands.specs.Seen.{seen_reply};
ghost use Rattle.arc_commands.specs.Several.{are_apart, join_answer};
ghost use Rattle.arc_commands.specs.declared.command.Reply.TheVariants as reply;
ghost use Rattle.arc_slots.specs.Answers.{JoinAnswers};
ghost use Rattle.arc_slots.specs.Calls.{Along};
ghost use Rattle.arc_slots.specs.Slots.{row_of, stand_of};
ghost use Rattle.arc_slots.specs.Stands.{HasPassFor};

use crate::passes::Passes;
use crate::slot::Slot;
use crate::window::Held;
use arc_block::layout::{Layout, LayoutMut};
use arc_buffer::buffer::BufferMut;
use arc_buffer::kinds::Slice;
use arc_commands::command::Reply;
use arc_kinds::kinds::{CallsOf, Commands, SmallOf, TableReply};
use arc_kinds::place::set_slot;
use std::alloc::Allocator;
use std::mem;

/// Joins two windows of several writers, and answers `Ok`. Then the first one has the places of
/// both, and the second one is gone. It takes no memory.
///
/// # Errors
///
/// As a reply, and nothing changes:
///
/// - `NoWindow` where one of the windows isn't there.
/// - `Kind` where one isn't of several writers.
/// - `Refused` where `try_join` refuses them.
///
/// # History
///
/// Joined on a block: Down of the second window.
pub fn join_at<
    S: Commands<A>,
    L: Layout,
    B: BufferMut<S::Item> + Drop,
    M: Drop,
    A: Allocator + Copy,
>(
    place: &mut Option<Slot<S, L, B, M, A>>,
    other: &mut Option<Slot<S, L, B, M, A>>,
    passes: &mut Passes<A>,
) -> TableReply<S, B, M, A>
where
    L::Writable: LayoutMut,
    S::Small: SmallOf<S, L, M, A>,
    requires pass { HasPassFor passes.old.of_blocks.items (stand_of place.old) }
    requires other_pass { HasPassFor passes.old.of_blocks.items (stand_of other.old) }
    ensures joined { IfSome place.old (λ s. IfSome other.old (λ o. (i j : ℕ) → (i == j) ≡ false
        → JoinAnswers S.Calls.calls i j s o passes.old.of_blocks.items
        (seen_reply S.items_in S.items_in_box B.list result)
        place.new other.new passes.new.of_blocks.items)) }
    ensures none { IfNone place.old ((result ≡ reply.NoWindow) × (place.new ≡ place.old)
        × (other.new ≡ other.old) × (passes.new ≡ passes.old)) }
    ensures no_other { IfNone other.old ((result ≡ reply.NoWindow) × (place.new ≡ place.old)
        × (other.new ≡ other.old) × (passes.new ≡ passes.old)) }
{
    let Some(slot) = place else {
        return Reply::NoWindow;
    };
    let Some(its) = mem::replace(other, None) else {
        return Reply::NoWindow;
    };
    let (reply, back) = slot.join_with(its, passes);
    set_slot(other, back);
    reply
}

impl<S: Commands<A>, L: Layout, B: BufferMut<S::Item> + Drop, M: Drop, A: Allocator + Copy> Slot<
    S,
    L,
    B,
    M,
    A,
>
where
    L::Writable: LayoutMut,
    S::Small: SmallOf<S, L, M, A>,
{
    /// Whether the two windows stand on two blocks.
    pub fn is_apart(&self, other: &Self) -> bool
        ensures { result ≡ are_apart self.now.block other.now.block }
    {
        match (self.block, other.block) {
            (Some(here), Some(there)) => here != there,
            _ => false,
        }
    }

    /// Puts the places of another window, with the items that lie there, behind this one's. Both
    /// are of several writers. The other owner ends. It takes no memory.
    ///
    /// # Errors
    ///
    /// The other window comes back where the two stand on two blocks, or only one on a block, where
    /// this one has a place without an item, and where its places don't end where the other's
    /// begin. Nothing is changed then.
    ///
    /// # History
    ///
    /// Joined on a block: Down of the other owner.
    pub fn try_join(&mut self, other: Self, passes: &mut Passes<A>) -> Result<(), Self>
        requires role { is_several self.old.role ≡ true }
        requires other_role { is_several other.role ≡ true }
        requires pass { HasPassFor passes.old.of_blocks.items (stand_of (Some self.old)) }
        requires other_pass { HasPassFor passes.old.of_blocks.items (stand_of (Some other)) }
        ensures joined { OnOk result (join_answer (row_of self.old) (row_of other)
            ≡ (reply.Ok, Some (row_of self.new))) }
        ensures stand { OnOk result (stand_of (Some self.new) ≡ stand_of (Some self.old)) }
        ensures left { OnOk result (Along (stand_of (Some other)) passes.old.of_blocks.items
            passes.new.of_blocks.items (λ o p q. (last : Bool) × Leaves o p q last)) }
        ensures back { IfErr result (λ back. back ≡ other) }
        ensures kept { IfErr result (λ _. self.new ≡ self.old) }
        ensures passes { IfErr result (λ _.
            passes.new.of_blocks.items ≡ passes.old.of_blocks.items) }
        ensures refused { IfErr result (λ _. join_answer (row_of self.old) (row_of other)
            ≡ (reply.Refused, None)) }
    {
        if self.is_apart(&other) {
            return Err(other);
        }
        self.known_shared();
        let block = self.block;
        let Held::Several(window) = &mut self.window else {
            unreachable!()
        };
        let Slot {
            window: its_window,
            block: its_block,
        } = other;
        let Held::Several(its_window) = its_window else {
            unreachable!()
        };
        window.known_place();
        its_window.known_place();
        let mut back = Some(its_window);
        let mut pass = passes.lend(block);
        let joined = S::Calls::try_unsplit_as(window, &mut back, &mut pass);
        passes.give_back(block, pass);
        if let Some(()) = joined {
            let None = back else { unreachable!() };
            return Ok(());
        }
        let Some(window) = back else { unreachable!() };
        Err(Slot {
            window: Held::Several(window),
            block: its_block,
        })
    }

    /// Joins the window with the other one, if both are of several writers: then that is gone.
    fn join_with(
        &mut self,
        other: Self,
        passes: &mut Passes<A>,
    ) -> (TableReply<S, B, M, A>, Option<Self>)
        requires pass { HasPassFor passes.old.of_blocks.items (stand_of (Some self.old)) }
        requires other_pass { HasPassFor passes.old.of_blocks.items (stand_of (Some other)) }
        ensures { (i j : ℕ) → (i == j) ≡ false → JoinAnswers S.Calls.calls i j self.old other
            passes.old.of_blocks.items (seen_reply S.items_in S.items_in_box B.list result.0)
            (Some self.new) result.1 passes.new.of_blocks.items }
    {
        if !self.is_several() || !other.is_several() {
            return (Reply::Kind, Some(other));
        }
        self.known_shared();
        match self.try_join(other, passes) {
            Ok(()) => (Reply::Ok, None),
            Err(back) => (Reply::Refused, Some(back)),
        }
    }
}
