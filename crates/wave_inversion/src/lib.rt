//! Inverting the prediction of a cube in place, up to eight bands in step as a wavefront: each band is a column behind the one below it.
//!
//! A sample waits for those of the previous bands at its column, and for the one to its west. So eight bands can go side by side if each
//! has come one column less far than the band below it.
#![tactic(auto)]

mod begin;
mod by_width;
mod centrals;
mod collect;
mod components;
mod finish;
mod form;
mod forms;
mod found;
pub mod inversion;
mod long;
mod lower;
mod place;
mod room;
mod rooms;
mod rows;
mod step;
mod steps;
mod tile;
mod unmapping;
mod width;
