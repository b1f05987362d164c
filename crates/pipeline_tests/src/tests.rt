//! Tests of plans, of predictors, and of the files that they make.

mod checks;
mod cube_a;
mod gates;
mod parallel;
mod plans;
mod predicted_files;
mod slots;
mod stopped_predictors;
mod stops;
mod tables;
mod weaver;
mod whole_lists;
mod whole_weave;
