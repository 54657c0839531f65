//! What rounding is, in the words of numerical analysis: laws of the definitions, and no code.

ghost use Rattle.float_rounding.specs.Laws.{RoundsToANeighbour, BitsCountUpwards, ValueAlone, OneBinadeIsEnough, ValuesStay, NoneBetween, NoneNearer, OrderStays, OppositesMirror, NearestEvenIsStd};

/// The result is the greatest magnitude not above the number, or the least above it.
pub fn rounds_to_a_neighbour()
    ensures { RoundsToANeighbour }
{}

/// More bits are a greater magnitude.
pub fn bits_count_upwards()
    ensures { BitsCountUpwards }
{}

/// Rounding sees the value of a fraction alone.
pub fn value_alone()
    ensures { ValueAlone }
{}

/// Tininess does not hang on how many binades are added below the normal numbers.
pub fn one_binade_is_enough()
    ensures { OneBinadeIsEnough }
{}

/// A value of the format rounds to itself, and raises nothing.
pub fn values_stay()
    ensures { ValuesStay }
{}

/// No value lies between a number and what it is rounded to.
pub fn none_between()
    ensures { NoneBetween }
{}

/// In the modes to the nearest no value is nearer, and ties go as the mode says.
pub fn none_nearer()
    ensures { NoneNearer }
{}

/// Rounding keeps order.
pub fn order_stays()
    ensures { OrderStays }
{}

/// Opposite numbers are rounded to opposite results, with the directed modes exchanged.
pub fn opposites_mirror()
    ensures { OppositesMirror }
{}

/// To the nearest, ties to even, is the rounding of std, whose floats are Rust's.
pub fn nearest_even_is_std()
    ensures { NearestEvenIsStd }
{}
