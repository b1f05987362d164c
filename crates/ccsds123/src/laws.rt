//! Laws of the definitions alone.

ghost use Rattle.ccsds123.specs.Bound.{NoLongerFile};

/// No file is longer than the bound of its parameters' numbers.
pub fn no_longer_file()
    ensures { NoLongerFile }
{}
