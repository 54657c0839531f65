use hart_words::{CsrName, CsrSide, Signal};

#[test]
fn signals_have_names_and_widths(rt: HostRuntime) {
    let mask = Signal::Csr(CsrName::Mepc, CsrSide::Wmask);
    assert!(rt; !mask.is_named(b"mepc_wmask"));
    assert!(rt; !Signal::Insn.is_named(b"insn_0"));
    for (signal, index, name, width) in [
        (Signal::Valid, 0, "valid", 1),
        (Signal::Rs2Rdata, 11, "rs2_rdata", 64),
        (Signal::MemWmask, 18, "mem_wmask", 8),
        (mask, 52, "csr_mepc_wmask", 64),
    ] {
        assert_eq!(rt; signal.index(), index);
        assert!(rt; signal.is_named(name.as_bytes()));
        assert_eq!(rt; signal.width(), width);
    }
}
