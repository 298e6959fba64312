//! Laws of the table of lists.
ghost use Rattle.std.specs.Prelude.{◌≡◌, ◌≤◌, ℕ, true, Bool, List};
ghost use Rattle.arc_parts.specs.Shared.{can_join, front_of, joined_row};
ghost use Rattle.arc_block.specs.Table.{Row, Table, empty_table};
ghost use Rattle.arc_parts.specs.Writers.{after_advance, capacity_of};
ghost use Rattle.arc_commands.specs.Apart.{IsLawful, IsParted};
ghost use Rattle.arc_commands.specs.Blocks.{RowsAgree, is_several};
ghost use Rattle.arc_commands.specs.Fits.{RowsFit};
ghost use Rattle.arc_commands.specs.RunOf.{RunOf};
ghost use Rattle.arc_commands.specs.State.{CarriesOut, State};
ghost use Rattle.arc_commands.specs.Changes.{Setting};
ghost use Rattle.arc_commands.specs.Step.{Run, Step};
ghost use Rattle.arc_commands.specs.Commands.{ListCmd, ListReply};
ghost use Rattle.arc_table.specs.Once.{AreRight, Booked, Books, EachOnce, StayRight, books_after};

/// Rows on one block agree about it, in every table that comes of the empty one. There no row
/// stands on a block, and each step keeps the agreement. So does each run, also a run of commands
/// that a `Table` carries out.
///
/// Does nothing: its contract is the law, for items and metadata of any type.
pub fn rows_agree<T, M>()
    ensures empty { RowsAgree {T = T} {M = M} empty_table }
    ensures step { (setting : Setting T) (old : Table T M) (command : ListCmd T M)
        (reply : ListReply T M) (new : Table T M) → Step setting old command reply new
        → RowsAgree old → RowsAgree new }
    ensures run { (setting : Setting T) (old : Table T M)
        (commands : List (ListCmd T M))
        (replies : List (ListReply T M)) (new : Table T M)
        → Run setting old commands replies new → RowsAgree old → RowsAgree new }
    ensures carried_out { (setting : Setting T) (old : State T M)
        (commands : List (ListCmd T M)) (replies : List (ListReply T M))
        (new : State T M)
        → RunOf (CarriesOut setting) old commands replies new
        → RowsAgree old.table → RowsAgree new.table }
{}

/// A row's items lie within its block, and a writer has a place there for each of them. A sole
/// writer of items that are dropped one by one has the places from its first item to the end of the
/// block, or its items' alone where others lie behind them.
///
/// So it is in every table that comes of the empty one. Where the rows of one block agree about it,
/// each step keeps it, and so does each run. Does nothing: its contract is the law, for items and
/// metadata of any type.
pub fn rows_fit<T, M>()
    ensures empty { (drops : Bool) → RowsFit {T = T} {M = M} drops empty_table }
    ensures step { (setting : Setting T) (old : Table T M) (command : ListCmd T M)
        (reply : ListReply T M) (new : Table T M) → Step setting old command reply new
        → RowsAgree old → RowsFit setting.drops old → RowsFit setting.drops new }
    ensures run { (setting : Setting T) (old : Table T M)
        (commands : List (ListCmd T M))
        (replies : List (ListReply T M)) (new : Table T M)
        → Run setting old commands replies new → RowsAgree old → RowsFit setting.drops old
        → RowsFit setting.drops new }
    ensures carried_out { (setting : Setting T) (old : State T M)
        (commands : List (ListCmd T M)) (replies : List (ListReply T M))
        (new : State T M) → RunOf (CarriesOut setting) old commands replies new
        → RowsAgree old.table → RowsFit setting.drops old.table
        → RowsFit setting.drops new.table }
{}

/// Of two rows on one block, of which one is a writer's, no place belongs to both. Each row ends
/// within its block. Where a sole writer stands, no other row does.
///
/// So it is in every table that comes of the empty one. Where rows on one block agree about it, and
/// each fits its place, each step keeps it, and so does each run. Does nothing: its contract is the
/// law, for items and metadata of any type.
pub fn writers_apart<T, M>()
    ensures empty { (drops : Bool) → IsLawful {T = T} {M = M} drops empty_table }
    ensures step { (setting : Setting T) (old : Table T M) (command : ListCmd T M)
        (reply : ListReply T M) (new : Table T M) → Step setting old command reply new
        → IsLawful setting.drops old → IsLawful setting.drops new }
    ensures run { (setting : Setting T) (old : Table T M)
        (commands : List (ListCmd T M))
        (replies : List (ListReply T M)) (new : Table T M)
        → Run setting old commands replies new → IsLawful setting.drops old
        → IsLawful setting.drops new }
    ensures carried_out { (setting : Setting T) (old : State T M)
        (commands : List (ListCmd T M)) (replies : List (ListReply T M))
        (new : State T M) → RunOf (CarriesOut setting) old commands replies new
        → IsLawful setting.drops old.table → IsLawful setting.drops new.table }
{}

/// The two parts into which one of several writers is split share no place, and together have all
/// of the places, also behind the items. Two writers' places that are joined are those of both, and
/// none of them belonged to both.
///
/// Does nothing: its contract is the law, for items and metadata of any type.
pub fn parts_apart<T, M>()
    ensures split { (row : Row T M) (at : ℕ) → is_several row.role ≡ true
        → at ≤ capacity_of row.role → IsParted row (front_of at row) (after_advance at row) }
    ensures joined { (row other : Row T M) → is_several row.role ≡ true
        → is_several other.role ≡ true → can_join row other ≡ true
        → IsParted (joined_row row other) row other }
{}

/// The items of a block leave it once. The books of a run have, for each block, the items that were
/// put into it, each at the place at which it was put in, and say that these are in the block,
/// handed out or dropped (`Books`). Commands and replies determine them, and where windows stand.
/// The block's vector or buffer is where its items are, and its metadata is in the block as long as
/// they are.
///
/// Right books (`AreRight`) of a lawful table stay right by each step, and each run has books
/// (`booked`). Things leave a block by a command on the last window there, and what was handed out
/// or dropped stays so. What a reply hands out was in a block until then, and where items are
/// dropped one by one it is all of them (`EachOnce`). Books of the empty table are right.
///
/// A list that a command brings and that comes into no block isn't in the books, nor is an `Arc`
/// that is a block by itself. Of items that need no drop the books don't say which ones a row
/// shows. Does nothing: its contract is the law, for items and metadata of any type.
pub fn items_once<T, M>()
    ensures empty { (drops : Bool) (books : Books T) → AreRight {M = M} drops empty_table books }
    ensures step { (setting : Setting T) (old : Table T M) (command : ListCmd T M)
        (reply : ListReply T M) (new : Table T M) (books : Books T)
        → Step setting old command reply new → IsLawful setting.drops old
        → AreRight setting.drops old books
        → let after = books_after setting old command reply new books in
        AreRight setting.drops new after
        × EachOnce setting old command reply new books after }
    ensures booked { (setting : Setting T) (old : Table T M) (commands : List (ListCmd T M))
        (replies : List (ListReply T M)) (new : Table T M) (books : Books T)
        → Run setting old commands replies new
        → (after : Books T) × RunOf (Booked setting) (old, books) commands replies (new, after) }
    ensures carried_out { (setting : Setting T) (old : State T M)
        (commands : List (ListCmd T M)) (replies : List (ListReply T M))
        (new : State T M) (books : Books T) → RunOf (CarriesOut setting) old commands replies new
        → (after : Books T) × RunOf (Booked setting) (old.table, books) commands replies
        (new.table, after) }
    ensures run { (setting : Setting T) (old : Table T M × Books T)
        (commands : List (ListCmd T M)) (replies : List (ListReply T M))
        (new : Table T M × Books T) → RunOf (Booked setting) old commands replies new
        → IsLawful setting.drops old.0 → AreRight setting.drops old.0 old.1
        → StayRight setting.drops old new }
{}
