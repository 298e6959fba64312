//! The entries of an owner history.
ghost use Rattle.std.specs.Prelude.{◌≡◌};

/// One entry of the history of a block's owners (`IsLegal` in specs/ says which histories are
/// legal). Owners are told apart by numbers, and the first owner of a block is 0.
#[derive(Clone, Copy, Debug, PartialEq, Eq)]
pub enum Entry {
    /// The count was raised through the first owner, which made the second one.
    Up(u64, u64),
    /// The count was found at its greatest through this owner.
    Full(u64),
    /// This owner was released.
    Down(u64),
    /// Uniqueness was read through this owner: whether it was found alone.
    Alone(u64, bool),
    /// The promoting exchange won through the first owner; the second one is new beside it.
    Promote(u64, u64),
    /// The promoting exchange lost through this owner.
    Joined(u64),
}
