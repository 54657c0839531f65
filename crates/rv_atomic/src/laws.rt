//! What holds of the atomic memory operations' minima and maxima.

ghost use Rattle.std.specs.Prelude.{ℕ};
ghost use Rattle.rv_decode.specs.declared.operation.Width.{Width};
ghost use Rattle.rv_atomic.specs.Extremes.{AreExtremes};

/// Each is one of both numbers, and none of them is less, or greater.
pub fn minima_and_maxima()
    ensures { (width : Width) (x y : ℕ) → AreExtremes width x y }
{}
