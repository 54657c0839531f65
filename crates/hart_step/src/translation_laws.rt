//! What translation comes to over steps.

ghost use Rattle.hart_words.specs.Memory.{Bytes};
ghost use Rattle.hart_words.specs.Signals.{Shown};
ghost use Rattle.hart_step.specs.declared.state.Core.{Core};
ghost use Rattle.hart_step.specs.Cores.{IsSound};
ghost use Rattle.hart_step.specs.TranslationLaws.{StepIsMapped};

/// Each byte that a step fetches, loads or stores under translation is where a leaf of its virtual
/// address puts it, by the page tables as the step finds them: the leaf is in the chain of that
/// address from the table that satp names, S may load it, its flags let the mode make the access,
/// A, and for a store D, is set or may be set, and its page number joined with the address's offset
/// is the physical address. Under MPRV in M the mode is MPP.
pub fn translated_accesses_are_mapped()
    ensures { (core : Core) (shown : Shown) (bytes : Bytes)
        → IsSound core → StepIsMapped core shown bytes }
{}
