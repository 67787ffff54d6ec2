//! The outside as the compiler sees it: a [`Shelf`] that files are read from, and a [`Sink`] that takes
//! bytes. Each keeps a count of its faults, so that a contract can tell a fault of the outside from a
//! fault that a body made up.
//!
//! - [`MemoryShelf`] and [`MemorySink`] stand in for the outside: they answer in small pieces and fail
//!   at chosen calls.
//! - [`PlainSink`] takes all that it is given and never fails but for want of memory.
//! - [`FileShelf`] and [`StdSink`] are the files and streams of the system. Of what those hold nothing
//!   is told, but each of their answers is that of a call of a [`FileSystem`] or a [`Stream`].
//! - [`WatchedShelf`] notes of one file of a shelf how far it was asked for.
#![tactic(auto)]

mod fault;
mod file_shelf;
mod file_system;
mod memory_shelf;
mod memory_sink;
mod opened_file;
mod piece;
mod plain_sink;
mod shelf;
mod sink;
mod std_sink;
mod stream;
mod watched_shelf;

pub use fault::IoFault;
pub use file_shelf::FileShelf;
pub use file_system::FileSystem;
pub use memory_shelf::MemoryShelf;
pub use memory_sink::MemorySink;
pub use piece::{NamedFile, copy_piece};
pub use plain_sink::PlainSink;
pub use shelf::Shelf;
pub use sink::Sink;
pub use std_sink::StdSink;
pub use stream::Stream;
pub use watched_shelf::WatchedShelf;
