//! A list of commands, carried out one after another.
ghost use Rattle.std.specs.Prelude.{◌≡◌, map, IfOk, IfErr, IsOk};
ghost use Rattle.std.specs.Vec.{vec_len};

use super::Table;
use arc_block::layout::{Layout, LayoutMut};
use arc_buffer::buffer::BufferMut;
use arc_kinds::kinds::{Commands, SmallOf, TableCmd, TableReply, TableUnder};
use arc_owners::error::AllocError;
use std::alloc::Allocator;
use std::sync::Wait;

impl<
    S: Commands<A>,
    L: Layout,
    B: BufferMut<S::Item> + Drop,
    M: Copy + Drop,
    A: Allocator + Copy,
> Table<S, L, B, M, A>
where
    L::Writable: LayoutMut,
    S::Small: SmallOf<S, L, M, A>,
{
    ghost use Rattle.arc_commands.specs.RunOf.{RunOf};
    ghost use Rattle.arc_commands.specs.Seen.{map_command, seen_reply};
    ghost use Rattle.arc_commands.specs.State.{CarriesOut};
    ghost use Rattle.arc_slots.specs.Places.{WrapsPlaces};
    ghost use Rattle.arc_table.specs.Carries.{CarriesPlaces};

    /// Carries out the commands one after another, each as `step` does, and answers the reply to
    /// each at its place. What comes in and what is taken out has the places that `step` says
    /// (`places`).
    ///
    /// # Errors
    ///
    /// The commands and `AllocError`, where memory for the replies is refused. It is asked for
    /// before the first command, so the table is then as before.
    ///
    /// # Allocates
    ///
    /// Once for the replies, unless there are no commands, and what each command asks for. Where
    /// memory for a command is refused its reply says so, and the commands behind it are carried
    /// out.
    ///
    /// # History
    ///
    /// What each command adds, as `step` says, in their order (`CarriesOut`).
    pub fn run(
        &mut self,
        rt: &impl Wait,
        commands: Vec<TableCmd<S, B, M, A>, A>,
    ) -> Result<Vec<TableReply<S, B, M, A>, A>, (Vec<TableCmd<S, B, M, A>, A>, AllocError)>
        ensures run { IfOk result (λ replies.
            RunOf (CarriesOut ⟦<S as TableUnder<L, A>>⟧.setting) self.old
            (map (map_command S.items_in S.static_in B.list) commands.items)
            (map (seen_reply S.items_in S.items_in_box B.list) replies.items)
            self.new) }
        ensures places { IfOk result (λ replies. RunOf (CarriesPlaces
            ⟦<S as TableUnder<L, A>>⟧.setting (WrapsPlaces S.Items.wraps) S.items_in S.items_in_box
            S.static_in B.list B.places) self.old commands.items replies.items self.new) }
        ensures many { IfOk result (λ replies. vec_len replies ≡ vec_len commands) }
        ensures succeeds { vec_len commands ≡ 0 → IsOk result }
        ensures back { IfErr result (λ refused. refused.0 ≡ commands) }
        ensures kept { IfErr result (λ _. self.new ≡ self.old) }
    {
        let Ok(mut replies) = Vec::with_capacity(self.alloc, commands.len()) else {
            return Err((commands, AllocError));
        };
        for command in commands {
            replies.push_reserved(self.step(rt, command));
        }
        Ok(replies)
    }
}
