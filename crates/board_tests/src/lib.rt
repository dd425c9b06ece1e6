//! Tests of records, words, the outside, boards, regions and their values. No program uses them.
#![tactic(auto)]

#[cfg(test)]
mod asserts;
#[cfg(test)]
mod attack_tests;
#[cfg(test)]
mod budget_tests;
#[cfg(test)]
mod cut_tests;
#[cfg(test)]
mod cycle_tests;
#[cfg(test)]
mod declared_tests;
#[cfg(test)]
mod expand_tests;
#[cfg(test)]
mod graph_tests;
#[cfg(test)]
mod group_tests;
#[cfg(test)]
mod life_tests;
#[cfg(test)]
mod number_tests;
#[cfg(test)]
mod outside_tests;
#[cfg(test)]
mod pairing_tests;
#[cfg(test)]
mod position_tests;
#[cfg(test)]
mod record_tests;
#[cfg(test)]
mod setup_fault_tests;
#[cfg(test)]
mod shape_tests;
#[cfg(test)]
mod state_tests;
#[cfg(test)]
mod value_tests;
#[cfg(test)]
mod word_tests;
