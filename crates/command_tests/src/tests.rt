//! Tests of command lines, and of what commands and their devices do with known bytes and refuse.

mod checks;
mod commands;
mod engines;
mod failing_streams;
mod inspect;
mod lines;
mod options;
mod raw_bytes;
mod read_by_planes;
mod read_by_rows;
mod reading_and_writing;
mod refused_lines;
mod reports;
mod show;
mod support;
