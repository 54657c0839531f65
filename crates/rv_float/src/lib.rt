//! The arithmetic of floating point, as the RISC-V extensions F and D have it: each operation takes
//! bits, and a rounding mode where it rounds, and gives bits and flags. `specs/` says what each one
//! gives, in exact numbers: a number is so many units, the unit being the least positive number of
//! its format, and `float_rounding` says what an exact number is rounded to. `laws` relates the
//! operations. Nothing here knows of registers or harts.
#![tactic(auto)]

mod arithmetic;
mod choices;
mod classes;
mod comparisons;
mod conversions;
mod fused;
mod integers;
pub mod laws;
mod nans;
mod operands;
mod quotients;
mod signs;
mod sums;
mod unpacked;

pub use arithmetic::{add, multiply, subtract};
pub use choices::{maximum, minimum};
pub use classes::{Class, classify};
pub use comparisons::{at_most, equal, less};
pub use conversions::{convert, from_integer, to_integer};
pub use fused::{multiply_add, multiply_subtract, negate_multiply_add, negate_multiply_subtract};
pub use integers::IntegerKind;
pub use quotients::{divide, square_root};
pub use signs::{boxed, copy_opposite_sign, copy_sign, multiply_signs, unboxed};
