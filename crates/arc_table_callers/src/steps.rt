//! A table of windows by number: commands one by one and as a list, and its end.
use arc_slice::buffer::Plain;
use arc_slice::error::AllocError;
use arc_table::command::{Cmd, Reply};
use arc_table::kinds::{TableCmd, TableReply};
use arc_table::table::Table;
use std::alloc::Global;
use std::sync::Wait;

/// A table of windows over bytes.
pub type ByteTable = Table<Plain<u8>>;

/// A command of such a table.
pub type ByteCommand = TableCmd<Plain<u8>, Vec<u8>, (), Global>;

/// The reply to such a command.
pub type ByteReply = TableReply<Plain<u8>, Vec<u8>, (), Global>;

/// The first five of these bytes, by a table that makes a window, cuts it and shows the part.
pub fn hello(rt: &impl Wait, alloc: Global, bytes: Vec<u8>) -> Option<Vec<u8>> {
    let mut table = ByteTable::new(alloc);
    let _ = table.step(rt, Cmd::Slice(bytes));
    let _ = table.step(
        rt,
        Cmd::Sub {
            window: 0,
            start: 0,
            end: 5,
        },
    );
    let shown = table.step(rt, Cmd::Show { window: 1 });
    let _ = table.end();
    match shown {
        Reply::Items(items) => Some(items),
        _ => None,
    }
}

/// The replies to a list of commands, or the same commands where memory for the replies is refused.
pub fn answered(
    rt: &impl Wait,
    table: &mut ByteTable,
    commands: Vec<ByteCommand>,
) -> Result<Vec<ByteReply>, (Vec<ByteCommand>, AllocError)> {
    table.run(rt, commands)
}

/// Whether a window has no bytes, which are seen where they are.
pub fn is_empty(table: &ByteTable, window: usize) -> bool {
    table.agree();
    match table.show_in_place(window) {
        Reply::Items(items) => items.is_empty(),
        _ => true,
    }
}
