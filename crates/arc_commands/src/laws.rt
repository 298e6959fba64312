//! Laws of the table of lists.
ghost use Rattle.std.specs.Prelude.{◌≡◌, ◌⊎◌, List, None, false, is_some, true, ℕ};
ghost use Rattle.arc_block.specs.Table.{Table};
ghost use Rattle.arc_commands.specs.Commands.{ListCmd, ListReply};
ghost use Rattle.arc_commands.specs.Others.{NoneIsOn, OtherRowsStay, OthersStay, RowStays};
ghost use Rattle.arc_commands.specs.State.{CarriesOut, State};
ghost use Rattle.arc_commands.specs.Changes.{Setting};
ghost use Rattle.arc_commands.specs.Blocks.{NoneOfSeveral};
ghost use Rattle.arc_commands.specs.Kinds.{is_had};
ghost use Rattle.arc_commands.specs.Step.{Run, Step, is_for_several, row_by, window_of};
ghost use Rattle.arc_commands.specs.declared.command.Reply.TheVariants as reply;
ghost use Rattle.arc_commands.specs.Worked.{MayAnswer, alone_for_more, joined_on_nothing};
ghost use Rattle.arc_commands.specs.Worked.{joined_when_full, leaves_its_vector, not_with_itself};
ghost use Rattle.arc_commands.specs.Worked.{only_one_again, whole_again};

/// A command changes only the rows of its own windows. Any other number that was given to a window
/// has the same row afterwards, or still none where the window has gone. The same holds of a run
/// none of whose commands is on the number.
///
/// A command that is carried out adds no entry to the history of a block on which its window
/// doesn't stand, and leaves the other windows where they stand.
///
/// Does nothing: its contract is the law, for items and metadata of any type.
pub fn others_stay<T, M>()
    ensures step { (setting : Setting T) (old : Table T M) (command : ListCmd T M)
        (reply : ListReply T M) (new : Table T M) → Step setting old command reply new
        → OtherRowsStay command old new }
    ensures run { (setting : Setting T) (old : Table T M) (commands : List (ListCmd T M))
        (replies : List (ListReply T M)) (new : Table T M) (j : ℕ)
        → Run setting old commands replies new → NoneIsOn commands j → RowStays j old new }
    ensures carried_out { (setting : Setting T) (old : State T M) (command : ListCmd T M)
        (reply : ListReply T M) (new : State T M) → CarriesOut setting old command reply new
        → OthersStay command old new }
{}

/// Where a kind has no windows of several writers, no row becomes one's. Commands that only such
/// windows have are answered `Kind` or `NoWindow`, and change nothing. Does nothing: its contract
/// is the law, for items and metadata of any type.
pub fn shares_not<T, M>()
    ensures rows { (setting : Setting T) (old : Table T M) (command : ListCmd T M)
        (reply : ListReply T M) (new : Table T M) → setting.calls.shares ≡ false
        → Step setting old command reply new → NoneOfSeveral old → NoneOfSeveral new }
    ensures kind { (setting : Setting T) (old : Table T M) (command : ListCmd T M)
        (answer : ListReply T M) (new : Table T M) → setting.calls.shares ≡ false
        → is_for_several command ≡ true → Step setting old command answer new
        → ((answer ≡ reply.Kind) ⊎ (answer ≡ reply.NoWindow)) × (new ≡ old) }
{}

/// A command that the kind or the layout lacks (`is_had`) is answered `Kind` or `NoWindow`, and
/// changes nothing. A command that makes a window of what it brings makes one exactly where they
/// have it. Does nothing: its contract is the law, for items and metadata of any type.
pub fn lacks_not<T, M>()
    ensures kind { (setting : Setting T) (old : Table T M) (command : ListCmd T M)
        (answer : ListReply T M) (new : Table T M) → is_had setting command ≡ false
        → Step setting old command answer new
        → ((answer ≡ reply.Kind) ⊎ (answer ≡ reply.NoWindow)) × (new ≡ old) }
    ensures makes { (setting : Setting T) (places block : ℕ) (command : ListCmd T M)
        → window_of command ≡ None
        → is_some (row_by setting places block command) ≡ is_had setting command }
{}

/// What a table of bytes may answer to some scripts of several writers. Does nothing: its contract
/// is the law.
pub fn several_worked()
    ensures joined_when_full { MayAnswer joined_when_full }
    ensures alone_for_more { MayAnswer alone_for_more }
    ensures not_with_itself { MayAnswer not_with_itself }
    ensures whole_again { MayAnswer whole_again }
    ensures only_one_again { MayAnswer only_one_again }
    ensures joined_on_nothing { MayAnswer joined_on_nothing }
    ensures leaves_its_vector { MayAnswer leaves_its_vector }
{}
