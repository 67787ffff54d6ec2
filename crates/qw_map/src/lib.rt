//! The linear memory as instances share it: areas, open runs, turns, and where columns, descriptors and result rows stand.
//!
//! - [`layout`]: where the columns begin, and where the parts of a descriptor and of a result row stand.
//! - [`region`]: consecutive octets, compared as sets.
//! - [`turn_laws`]: what holds of instances that share one memory, for every list of turns.
//! - [`result_laws`]: result rows stay whatever others do.
//! - [`worked_laws`]: cases with numbers.
//! - `specs/Areas`: areas of the memory, and what an instance and others may do there.
//! - `specs/Runs`: open runs, and how an instance behaves in all of them.
//! - `specs/Turns`: several instances over one memory, their turns and their ends.
//! - `specs/Columns`, `specs/Layout`: columns, the descriptor and result rows in memory.
#![tactic(auto)]

pub mod layout;
pub mod region;
pub mod result_laws;
pub mod turn_laws;
pub mod worked_laws;
