//! A wavefront in lanes of 32 bits, for samples, weights and exponents that 16 bits don't hold.

pub(crate) mod begin;
pub(crate) mod central_lines;
pub(crate) mod centrals;
pub(crate) mod collect;
pub(crate) mod components;
pub(crate) mod form;
pub(crate) mod lower;
pub(crate) mod place;
pub(crate) mod room;
pub(crate) mod rows;
pub(crate) mod step;
pub(crate) mod steps;
pub(crate) mod tile;
pub(crate) mod unmapping;
pub(crate) mod weights;
