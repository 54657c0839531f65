//! What holds of the instructions, in the manual's words.

ghost use Rattle.rv_bits.specs.Laws.{ResultsFit, LeadingZerosBracket, TrailingZerosDivide, ZeroHasAllZeros, OnesAndZerosAreAll, RotationsUndo, WordRotationsUndo, ReversalsUndo, SignedOrder, UnsignedOrder};

/// Operands of 64 bits give results of 64 bits.
pub fn results_fit()
    ensures { ResultsFit }
{}

/// CLZ tells between which powers of two a value is; 2 to the power of CTZ is the greatest power of
/// two that divides it; both count all bits of 0; the ones of a value and of its complement are all
/// bits.
pub fn counts_count()
    ensures leading { LeadingZerosBracket }
    ensures trailing { TrailingZerosDivide }
    ensures zero { ZeroHasAllZeros }
    ensures ones { OnesAndZerosAreAll }
{}

/// A rotation to one side undoes the one to the other.
pub fn rotations_undo()
    ensures doublewords { RotationsUndo }
    ensures words { WordRotationsUndo }
{}

/// REV8 undoes itself.
pub fn reversals_undo()
    ensures { ReversalsUndo }
{}

/// MIN and MAX put their operands in order.
pub fn minima_and_maxima_are_ordered()
    ensures signed { SignedOrder }
    ensures unsigned { UnsignedOrder }
{}
