//! How the operations hang together: laws of the definitions, and no code.

ghost use Rattle.rv_float.specs.Laws.{MinusZeroAddsNothing, OneMultipliesNothing, OneDividesNothing, RootsOfSquares, RootsRoundBySquares, NumbersAreOrdered};

/// FMADD with minus zero as the addend is FMUL, but for the sign of a zero.
pub fn minus_zero_adds_nothing()
    ensures { MinusZeroAddsNothing }
{}

/// FMADD with 1 as a factor is FADD.
pub fn one_multiplies_nothing()
    ensures { OneMultipliesNothing }
{}

/// A number over 1 is itself, and raises nothing.
pub fn one_divides_nothing()
    ensures { OneDividesNothing }
{}

/// The root of a value's square is the value, and raises nothing.
pub fn roots_of_squares()
    ensures { RootsOfSquares }
{}

/// Numbers are in a total order, in which minus zero equals plus zero.
pub fn numbers_are_ordered()
    ensures { NumbersAreOrdered }
{}

/// A root is rounded to the neighbour that its square says.
pub fn roots_round_by_squares()
    ensures { RootsRoundBySquares }
{}
