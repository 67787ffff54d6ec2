//! The one notion by which blocks of Low carry rows: a block feeds a sink.
//!
//! A scan, a conjunct, a probe of a table, a join and what adds a row to a result are blocks that feed: they begin where the sink has taken some
//! rows, and end where it has taken those of a flow behind them, or raise an exception of the flow, or 3 where a page was refused. So each is
//! proved by itself, and put together by rules that know nothing of the sink.
//!
//! - `specs/Feeds`: flows, what takes rows (`Sink`), and what it is that a block feeds it (`FeedsTo`).
//! - `specs/Frames`: what a block leaves as it was (`Keeps`, `Stored`).
//! - `specs/Room`: free space, and that what is placed pays for the pages (`HasRoom`, `Paid`); [`room`]: its blocks.
//! - `specs/Rows`: a query's result as a sink (`HasRows`, `rows_sink`); [`rows`]: its blocks.
//! - `specs/Cells`: the cells of a row, and the blocks that store them.
//! - `specs/Stages`: conjuncts and items, and what their blocks promise.
//! - `specs/Scans`: the loop over a table's rows.
//! - [`worked_laws`]: worked cases of the definitions, with numbers.
//!
//! What the blocks come to can't be said in clauses, which don't range over properties: it stands in lemmas, which the crates above cite
//! (`proofs/FeedRules`, `LoopFeeds`, `ScanFeeds`, `InnerFeeds`, `PushFeeds`). A row that is added takes 33 instructions beside those of
//! its cells where a page is asked for, and 21 where not.
#![tactic(auto)]

pub mod room;
pub mod rows;
pub mod worked_laws;
