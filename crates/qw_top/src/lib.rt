//! From the bytes of the files to the bytes of the report.
//!
//! The program `qwasm` makes one call, [`qwasm`]. It takes the words of the command line, a shelf of files, a sink for the
//! report, one for the lines on what went wrong, and a place for the bench, and answers the [`Status`] of the run. The program
//! `qwasm-layout` calls [`qwasm_layout`] so.
//!
//! - [`files`]: a whole file, within its limit, and the names of files.
//! - `table_file`: the files of a table, loaded as they are read.
//! - `generated`: generated input as the files of a run.
//! - [`output`]: a text written whole.
//! - [`notes`]: the lines on what went wrong.
//! - `causes`: the lines on the causes for which a file is refused.
//! - [`stop`] and [`status`]: how a run ends.
//! - [`top`]: the whole run.
//! - [`worked_laws`]: cases with numbers.
//!
//! The time grows with the lengths of the files and of the report and with the number of
//! instructions executed; docs/ARCHITECTURE.md counts them. In memory are at most one text or module as it was read,
//! or of a table's file one piece and the octets after the last whole record before it, four octets for each value
//! of the loaded rows and four in the linear memory, the pages of the instance, the result rows, and the report.
#![tactic(auto)]

mod causes;
pub mod files;
mod generated;
pub mod notes;
pub mod output;
pub mod status;
pub mod stop;
mod table_file;
pub mod top;
pub mod worked_laws;

pub use status::Status;
pub use top::layout::qwasm_layout;
pub use top::qwasm;
