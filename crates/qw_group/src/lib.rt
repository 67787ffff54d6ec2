//! Groups of rows as blocks of Low: a hash table in whose entries set functions are reckoned in place (ISO/IEC 9075:1992, 7.7 and 6.5).
//!
//! - [`group`]: a row is put into its group: the entry that has its key is found, or placed, and takes the row's arguments.
//! - [`aggregate`]: a set function takes one value more, in its area of an entry.
//! - [`value`]: the value of a set function, at the end.
//! - [`walk`]: each group is met once.
//! - [`single`]: all rows as one group, without a table.
//! - [`sum`], [`quotient`], [`average`]: exact sums of 128 bits in two locals, the quotient of one, and the average of values.
//! - [`worked_laws`]: worked cases of the definitions.
//! - `specs/Groups`, `specs/Walks`, `specs/Single`: the table of groups, and one group alone, that these are sinks of `qw_feed`, and what is promised of the
//!   blocks that use them.
//! - `specs/Areas`, `specs/Values`: what an entry says of a set function, and how that is read.
//! - `specs/Wides`, `specs/Sums`: numbers of two words, and what the blocks on them promise.
//!
//! A row finds its group by 9 instructions, 8 an entry that is passed and 9 for the one that is found, beside the slot and the test of its key; a sum then
//! takes 37, a count 8, and a least or greatest number 15 to 22.
#![tactic(auto)]

pub mod aggregate;
pub mod average;
pub mod group;
pub mod quotient;
pub mod single;
pub mod sum;
pub mod value;
pub mod walk;
pub mod worked_laws;
