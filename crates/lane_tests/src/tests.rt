//! Tests of lanes, feeds and workers.

mod bells;
mod checks;
mod feeds;
mod gates;
mod lanes;
mod lanes_between_threads;
mod workers;
