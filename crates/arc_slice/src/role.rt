//! The roles of writers, for code that is generic in them.
pub use arc_writer_parts::role::{CopyWriterParts, Role, RoleOf, WriterParts};
