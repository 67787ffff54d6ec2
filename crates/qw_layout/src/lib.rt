//! Keys of hash tables, and where the parts of their entries stand. No code is emitted here.
//!
//! - [`key`]: the fields of a key, and the shapes that it is packed in; [`key::shape_of`].
//! - [`hash`]: the hash of a key, and its slot in a directory; [`hash::hash_of`], [`hash::slot_of`].
//! - [`row`]: the offsets of an entry's key, columns and aggregates; [`row::RowLayout`].
//! - [`key_laws`]: packs are equal exactly where keys aren't distinct, and such keys are in one slot.
//! - [`worked_laws`]: cases with numbers.
//! - `specs/Key`, `specs/Hash`, `specs/Row`: packs, hashes and offsets as definitions.
#![tactic(auto)]

pub mod hash;
pub mod key;
pub mod key_laws;
pub mod row;
pub mod worked_laws;
