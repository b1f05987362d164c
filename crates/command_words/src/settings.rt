//! What a command line asks for.

use cube_core::layout::Layout;
use header_bits::params::Params;

/// How a cube is compressed.
#[derive(Drop)]
pub struct CompressSettings {
    pub params: Params,
    /// How the samples lie in the raw bytes.
    pub layout: Layout,
    /// How many predictors run in threads of their own, at most 64; with 0 the cube is coded on one thread.
    pub predictors: u32,
    /// How many residuals a predictor's lane has room for, 1 to 65,536.
    pub slots: u32,
}

/// A command with its settings, and the paths that it reads from and writes to.
#[derive(Drop)]
pub enum Settings {
    /// Reads a small cube from the standard input, and writes its file in hexadecimal to the standard output.
    Show,
    /// Turns raw bytes into a file: the settings, IN and OUT.
    Compress(CompressSettings, String, String),
    /// Turns a file into raw bytes: their layout, IN and OUT.
    Expand(Layout, String, String),
    /// Reads a file from the standard input, and writes its header as lines.
    Inspect,
}
