//! Laws of the definitions alone.

ghost use Rattle.header_bits.specs.Laws.{OneHeader, HeaderIsExact, HeaderIsLawful, ChosenIsSpelt, FaultIsNoHeader};

/// Bits begin with at most one header, and it is a header of one set of parameters alone.
pub fn one_header()
    ensures { OneHeader }
{}

/// Parameters are read exactly where the bits begin with a header of them.
pub fn header_is_exact()
    ensures { HeaderIsExact }
{}

/// Whatever is a header has lawful parameters.
pub fn header_is_lawful()
    ensures { HeaderIsLawful }
{}

/// The header that a coder writes for lawful parameters is a header of them.
pub fn chosen_is_spelt()
    ensures { ChosenIsSpelt }
{}

/// Where a header is refused, other than as too short, the bits begin with no header, whatever bits follow.
pub fn fault_is_no_header()
    ensures { FaultIsNoHeader }
{}
