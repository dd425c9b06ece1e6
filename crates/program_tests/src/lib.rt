//! Tests of solved games, sessions and whole runs of the program. No program uses them.
#![tactic(auto)]

#[cfg(test)]
mod analysis_tests;
#[cfg(test)]
mod asserts;
#[cfg(test)]
mod board_gtp_tests;
#[cfg(test)]
mod calc_tests;
#[cfg(test)]
mod cycle_game_tests;
#[cfg(test)]
mod cycle_play_tests;
#[cfg(test)]
mod cycle_run_tests;
#[cfg(test)]
mod cycle_text_tests;
#[cfg(test)]
mod device_tests;
#[cfg(test)]
mod endings;
#[cfg(test)]
mod engine_lines;
#[cfg(test)]
mod engine_rooms;
#[cfg(test)]
mod engine_tests;
#[cfg(test)]
mod every_line;
#[cfg(test)]
mod files;
#[cfg(test)]
mod gtp_tests;
#[cfg(test)]
mod library_tests;
#[cfg(test)]
mod plain_solved_tests;
#[cfg(test)]
mod plain_tests;
#[cfg(test)]
mod play_tests;
#[cfg(test)]
mod run_tests;
#[cfg(test)]
mod runs;
#[cfg(test)]
mod shared_shape_tests;
#[cfg(test)]
mod solved_tests;
#[cfg(test)]
mod source_tests;
#[cfg(test)]
mod tax_tests;
#[cfg(test)]
mod territory_tests;
#[cfg(test)]
mod turn_tests;
#[cfg(test)]
mod values_tests;
#[cfg(test)]
mod worked_games;
#[cfg(test)]
mod write_counts;
