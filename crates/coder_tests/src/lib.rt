//! Tests of the worked examples, and round trips over many settings, through public calls.
#![tactic(auto)]

#[cfg(test)]
mod band_groups;
#[cfg(test)]
mod block_coder;
#[cfg(test)]
mod bodies_by_hand;
#[cfg(test)]
mod checks;
#[cfg(test)]
mod code_words;
#[cfg(test)]
mod files;
#[cfg(test)]
mod fills;
#[cfg(test)]
mod flipped_bits;
#[cfg(test)]
mod longest_row;
#[cfg(test)]
mod option_costs;
#[cfg(test)]
mod plain_bits;
#[cfg(test)]
mod predicted_runs;
#[cfg(test)]
mod predictor;
#[cfg(test)]
mod refusals;
#[cfg(test)]
mod row_parameters;
#[cfg(test)]
mod row_pieces;
#[cfg(test)]
mod row_words;
#[cfg(test)]
mod rows;
#[cfg(test)]
mod sample_coder;
#[cfg(test)]
mod sample_count;
