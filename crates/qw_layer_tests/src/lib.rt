//! The tests of single layers below the bench that need more than one crate. They stand apart from those of whole runs, so that
//! both are proved side by side; those of the layers that read texts are rows of `qw_text_cases`.
#![tactic(auto)]

#[cfg(test)]
mod assertions;
#[cfg(test)]
mod columns;
#[cfg(test)]
mod exact_comparisons;
#[cfg(test)]
mod folded_queries;
#[cfg(test)]
mod keys;
#[cfg(test)]
mod linear_memory;
#[cfg(test)]
mod pipelines;
#[cfg(test)]
mod sources_and_sinks;
#[cfg(test)]
mod worked_queries;
