//! What holds of the values of made rows.

ghost use Rattle.std.specs.Prelude.{◌≡◌, ℕ, ◌+◌, ◌%◌, ◌^◌, bit_xor};
ghost use Rattle.trace_maker.specs.Rows.{immediate_of, x1_after, x3_after};

/// Each turn adds the immediate to x1, and takes x1 into x3.
pub fn turns_go_on()
    ensures x1 { (number turn : ℕ)
        → x1_after number (turn + 1) ≡ (x1_after number turn + immediate_of number) % 2 ^ 64 }
    ensures x3 { (number turn : ℕ)
        → x3_after number (turn + 1) ≡ bit_xor (x3_after number turn) (x1_after number (turn + 1)) }
{}
