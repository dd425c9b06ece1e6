//! Tests of numbers, games, their texts and their sums. No program uses them.
#![tactic(auto)]

#[cfg(test)]
mod asserts;
#[cfg(test)]
mod calculator_tests;
#[cfg(test)]
mod comparison_tests;
#[cfg(test)]
mod dyadic_tests;
#[cfg(test)]
mod id_tests;
#[cfg(test)]
mod order_tests;
#[cfg(test)]
mod plain_sum_tests;
#[cfg(test)]
mod pool_tests;
#[cfg(test)]
mod sum_tests;
#[cfg(test)]
mod text_tests;
#[cfg(test)]
mod thermograph_tests;
