//! The writing end of an image: from its cube to the bytes of its file, on one thread.
#![tactic(auto)]

mod all_bands;
mod copied;
mod each_plane;
mod each_row;
pub mod encode;
pub mod encoder;
pub mod file_encoder;
mod gather;
mod in_place;
mod kept_planes;
pub mod laws;
pub mod line_encoder;
mod offsets;
mod pieces;
pub mod plane_encoder;
pub mod row_encoder;
mod side_by_side;
pub mod taker;
pub mod walk;
