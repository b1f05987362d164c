//! Tests of cubes, kinds, places, faults, bits and headers.

mod bit_reader;
mod bit_writer;
mod checks;
mod cubes;
mod faults;
mod headers;
mod kinds;
mod longest_header;
mod places;
mod tables;
