//! Hash tables as blocks of Low: for joins, and in the form that groups and DISTINCT need.
//!
//! A table is a directory of 1,024 slots, each of which leads to a chain of entries, the newest first. An entry has a link, and a cell for each of
//! its values; a key is any number of fields, each of which may be null. What a block needs of a key or an entry it is told by its caller: nothing
//! in the blocks of a table knows the key.
//!
//! - [`cells`]: the cells of an entry are stored.
//! - [`directory`]: an empty directory is placed.
//! - [`insert`]: an entry, whose cells a block stores, is put into a slot.
//! - [`probe`]: a block at each entry of a slot where a test holds.
//! - [`entry`]: a cell of an entry comes into locals.
//! - [`key`]: the fields of a key, and the block that finds its slot.
//! - [`key_test`]: whether an entry has a key.
//! - [`join`]: a row is entered by its key, and the entries with an equal key are met.
//! - [`outer`]: a LEFT JOIN: what follows goes on with the entries that a row meets, or with the row alone.
//! - [`worked_laws`]: worked cases of the definitions.
//! - `specs/Tables`: the table and its blocks, and that it is a sink of `qw_feed`; `specs/Entries`, `specs/Keys`, `specs/Joins`,
//!   `specs/Outer`: what the others promise.
//!
//! An entry is entered by 25 instructions beside those of its cells, where no page is asked for, and met by 8 beside its test. The slot of a key of
//! one number takes 97, its test 11.
#![tactic(auto)]

pub mod cells;
pub mod directory;
pub mod entry;
pub mod insert;
pub mod join;
pub mod key;
pub mod key_test;
pub mod outer;
pub mod probe;
mod slot;
pub mod worked_laws;
