//! What holds of the definitions alone.

ghost use Rattle.file_format.specs.Laws.{ChosenIsFile, FileIsFine, FineIsFile, NoShorterFile, OneFile};
ghost use Rattle.predict_core.specs.Cubes.{OneCube};

/// The file that is written for a cube is a file of it.
#[tactic(auto, using(crate::proofs::WrittenFiles::chosen_is_file))]
pub fn chosen_is_file()
    ensures { ChosenIsFile }
{}

/// A file has no fault.
pub fn file_is_fine()
    ensures { FileIsFine }
{}

/// Bytes without a fault are a file.
#[tactic(auto, using(crate::proofs::FineFiles::fine_is_file))]
pub fn fine_is_file()
    ensures { FineIsFile }
{}

/// No file is shorter than its header and `minimum_length` of its parameters.
pub fn no_shorter_file()
    ensures { NoShorterFile }
{}

/// Two cubes with the same residuals are equal.
pub fn one_cube()
    ensures { OneCube }
{}

/// No bytes are a file of two different pairs of parameters and cube.
pub fn one_file()
    ensures { OneFile }
{}
