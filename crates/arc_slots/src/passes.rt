//! The passes of a table's blocks.

use arc_owners::error::AllocError;
use arc_owners::mark::Whole;
use arc_owners::owners::Pass;
use std::alloc::Allocator;
use std::mem;

/// The one pass of each block, under the block's number. They have no bytes: what they say is for
/// contracts.
#[derive(Drop)]
pub struct Passes<A: Allocator> {
    /// The pass of each block at its number.
    pub of_blocks: Vec<Pass<Whole>, A>,
}

impl<A: Allocator> Passes<A> {
    ghost use Rattle.std.specs.Prelude.{◌≡◌, ◌<◌, ◌++◌, ◌∷◌, [], true, false, length, Some};
    ghost use Rattle.std.specs.Prelude.{OnOk, OnErr};
    ghost use Rattle.std.specs.Vec.{vec_capacity};
    ghost use Rattle.arc_slots.specs.Stands.{HasNumber, IsAttested, TakenOut, put_back};

    /// The pass of a block, for a call that steps on it, or a pass of none. It comes back by
    /// `give_back`.
    pub fn lend(&mut self, block: Option<usize>) -> Pass<Whole>
        requires { HasNumber self.old.of_blocks.items block }
        ensures taken { TakenOut self.old.of_blocks.items block result self.new.of_blocks.items }
        ensures number { HasNumber self.new.of_blocks.items block }
        ensures many { length self.new.of_blocks.items ≡ length self.old.of_blocks.items }
        ensures room { vec_capacity self.new.of_blocks ≡ vec_capacity self.old.of_blocks }
    {
        match block {
            Some(number) => mem::replace(&mut self.of_blocks[number], Pass::none()),
            None => Pass::none(),
        }
    }

    /// Takes back the pass that `lend` gave for a block.
    pub fn give_back(&mut self, block: Option<usize>, pass: Pass<Whole>)
        requires { HasNumber self.old.of_blocks.items block }
        ensures { self.new.of_blocks.items ≡ put_back self.old.of_blocks.items block pass }
    {
        if let Some(number) = block {
            self.of_blocks[number] = pass;
        }
    }

    /// What the pass of a block has seen is legal. Does nothing: its contract is the law.
    pub(crate) fn attest(&self, block: Option<usize>)
        requires { HasNumber self.now.of_blocks.items block }
        ensures { IsAttested self.now.of_blocks.items block }
    {
        if let Some(number) = block {
            self.of_blocks[number].attest();
        }
    }

    /// Takes back the pass that `lend` gave for a block. Where a first block was made, it keeps
    /// that block's pass under the next number. It answers the number of the block.
    pub fn keep(&mut self, block: Option<usize>, begins: bool, pass: Pass<Whole>) -> Option<usize>
        requires number { HasNumber self.old.of_blocks.items block }
        requires room { begins ≡ true
            → length self.old.of_blocks.items < vec_capacity self.old.of_blocks }
        ensures same { begins ≡ false → (result ≡ block)
            × (self.new.of_blocks.items ≡ put_back self.old.of_blocks.items block pass) }
        ensures new { begins ≡ true → (result ≡ Some (length self.old.of_blocks.items))
            × (self.new.of_blocks.items ≡ self.old.of_blocks.items ++ pass ∷ []) }
    {
        if begins {
            let number = self.of_blocks.len();
            self.of_blocks.push_reserved(pass);
            return Some(number);
        }
        self.give_back(block, pass);
        block
    }

    /// Makes room for the pass of a first block, where one is to be made.
    ///
    /// # Errors
    ///
    /// `AllocError` where memory for that is refused.
    ///
    /// # Allocates
    ///
    /// Once, where there are too few places.
    pub fn reserve_for(&mut self, begins: bool) -> Result<(), AllocError>
        ensures items { self.new.of_blocks.items ≡ self.old.of_blocks.items }
        ensures room { OnOk result (begins ≡ true
            → length self.new.of_blocks.items < vec_capacity self.new.of_blocks) }
        ensures refused { OnErr result (begins ≡ true) }
    {
        if begins && self.of_blocks.reserve(1).is_err() {
            return Err(AllocError);
        }
        Ok(())
    }
}
