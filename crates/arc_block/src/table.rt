//! The table of lists: what of it can be told by counting.
ghost use Rattle.std.specs.Prelude.{◌≡◌, ◌↔◌, ℕ, Some, true};
ghost use Rattle.arc_block.specs.Table.{Row, Table, row_at, is_alone, IsAlone};

/// A row is alone exactly where no other row stands on its block. So it can be told by counting
/// rows. Does nothing: its contract is the law.
pub fn alone_is_counted<T, M>()
    ensures { (t : Table T M) (i : ℕ) (row : Row T M) → row_at t i ≡ Some row
        → (is_alone t row.place ≡ true) ↔ IsAlone t i }
{}
