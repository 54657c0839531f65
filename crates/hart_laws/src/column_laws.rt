//! What holds of the columns of control and status registers.

ghost use Rattle.std.specs.Prelude.{◌≡◌, ℕ, false, Some};
ghost use Rattle.hart_words.specs.Memory.{Bytes};
ghost use Rattle.hart_words.specs.Signals.{Shown};
ghost use Rattle.hart_words.specs.declared.signal.CsrName.{CsrName};
ghost use Rattle.hart_words.specs.declared.signal.CsrSide.TheVariants.{Rdata, Wdata};
ghost use Rattle.hart_words.specs.declared.signal.Signal.TheVariants.{Csr};
ghost use Rattle.hart_step.specs.declared.state.Core.{Core};
ghost use Rattle.hart_laws.specs.Columns.{IsComparedWith, done_by, had_before, has_after};

/// What a row shows of a control and status register is compared, whichever register it is: a value
/// before the instruction with what the register has as the instruction finds it, after an
/// interrupt's entry, and one after the row with what it has then. A row that agrees shows the same
/// in all bits that are compared. So no value goes uncompared because none was carried.
pub fn shown_registers_are_compared()
    ensures before { (core : Core) (shown : Shown) (bytes : Bytes) (name : CsrName) (value : ℕ)
        → core.halted ≡ false → shown (Csr name Rdata) ≡ Some value
        → IsComparedWith (done_by core shown bytes) shown (Csr name Rdata) value
        (had_before core shown name) }
    ensures after { (core : Core) (shown : Shown) (bytes : Bytes) (name : CsrName) (value : ℕ)
        → core.halted ≡ false → shown (Csr name Wdata) ≡ Some value
        → IsComparedWith (done_by core shown bytes) shown (Csr name Wdata) value
        (has_after core shown bytes name) }
{}
