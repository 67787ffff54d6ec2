//! The tests of benches in turns, of calls whose outside is made for them, and of texts that no whole call shows. A crate with tests is
//! proved twice, so they stand together.
#![tactic(auto)]

#[cfg(test)]
mod empty_fields;
#[cfg(test)]
mod generated_input;
#[cfg(test)]
mod long_table;
#[cfg(test)]
mod reports;
#[cfg(test)]
mod schedules;
#[cfg(test)]
mod step_limits;
#[cfg(test)]
mod tables;
#[cfg(test)]
mod want_of_memory;
#[cfg(test)]
mod whole_files;
#[cfg(test)]
mod written_texts;
