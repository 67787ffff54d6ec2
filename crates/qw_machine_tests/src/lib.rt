//! The tests of the layers that write and check modules (`qw_binary`, `qw_valid`), at modules that no octets spell. All others are rows of
//! `qw_machine_cases`.
#![tactic(auto)]

#[cfg(test)]
mod encoded;
#[cfg(test)]
mod modules;
#[cfg(test)]
mod validity;
