//! Single steps in S and U, from a core that one entry of protection grants all.

ghost use Rattle.std.specs.Prelude.{◌≡◌, IfOk};
ghost use Rattle.csr_file.specs.Legal.{IsLegal};
ghost use Rattle.hart_step.specs.HartSets.{SetCanStep};

use crate::tests::{CODE, core_of, memory_with, one_hart, put, ram_and_devices};
use csr_file::{Csrs, StoredCsr};
use hart_step::{Core, Harts};
use hart_words::Mode::{Machine, Supervisor, User};
use hart_words::{Cause, Choices, Map, Mode, PmpEntry};
use page_layers::MapMem;
use rvfi_rows::{Expected, read_header, read_row};
use std::alloc::Global;
use std::process::Abort;
use std::test::Fail;

const HANDLER: u64 = 0x8000_0100;

const RETURN: u64 = 0x8000_0200;

/// ADDI x0, x0, 0.
const NOP: u64 = 0x13;

/// CSRRS x12, cycle, x0; and of time and hpmcounter3.
const READ_CYCLE: u64 = 0xc000_2673;

const READ_TIME: u64 = 0xc010_2673;

const READ_HPMCOUNTER3: u64 = 0xc030_2673;

const SRET: u64 = 0x1020_0073;

const MRET: u64 = 0x3020_0073;

const WFI: u64 = 0x1050_0073;

const SFENCE_VMA: u64 = 0x1200_0073;

const ECALL: u64 = 0x73;

/// Registers by address.
const SSTATUS: u16 = 0x100;

const STVEC: u16 = 0x105;

const SCOUNTEREN: u16 = 0x106;

const SEPC: u16 = 0x141;

const MSTATUS: u16 = 0x300;

const MEDELEG: u16 = 0x302;

const MIDELEG: u16 = 0x303;

const MIE: u16 = 0x304;

const MTVEC: u16 = 0x305;

const MCOUNTEREN: u16 = 0x306;

const MIP: u16 = 0x344;

/// Bits of mstatus.
const SPP: u64 = 1 << 8;

const TVM: u64 = 1 << 20;

const TW: u64 = 1 << 21;

const TSR: u64 = 1 << 22;

const HEADER: &[u8] = b"insn,pc_rdata,intr,trap,rd_wdata,csr_mip_rdata";

const BLANK: &[u8] = b"0,0,,,,";

/// The registers at reset, but for an entry of protection that grants all to every mode.
pub(crate) fn open_csrs() -> Csrs
    ensures { IsLegal result }
{
    let mut csrs = Csrs::reset();
    csrs.entries[0] = PmpEntry {
        cfg: 0x1f,
        addr: 0x3f_ffff_ffff_ffff,
    };
    csrs
}

/// Writes registers as M does.
pub(crate) fn write_all(csrs: &mut Csrs, writes: &[(u16, u64)]) -> Result<(), Fail>
    requires legal { IsLegal csrs.old }
    ensures legal { IsLegal csrs.new }
{
    'writes: for (address, value) in writes {
        csrs.write(*address, Mode::Machine, *value)
            .map_err(|_| Fail::from("no register"))?;
    }
    Ok(())
}

/// A hart at `CODE` in a mode, with values in registers of control.
fn hart_in(
    alloc: Global,
    mem: MapMem,
    map: Map,
    mode: Mode,
    writes: &[(u16, u64)],
) -> Result<Harts<MapMem>, Fail>
    requires { mem.ram ≡ map.ram }
    ensures { IfOk result (SetCanStep (λ mem. mem.ram)) }
{
    let mut core = Core::reset(CODE, map, Choices::plain());
    let mut csrs = open_csrs();
    write_all(&mut csrs, writes)?;
    core.csrs = csrs;
    core.mode = mode;
    one_hart(alloc, core, mem)
}

/// What the instruction at `CODE` does: the value of x12, or the cause of its trap; and the mode
/// and the pc after it.
fn outcome_of(
    alloc: Global,
    instruction: u64,
    mode: Mode,
    writes: &[(u16, u64)],
    line: &[u8],
) -> Result<After, Fail> {
    let map = ram_and_devices()?;
    let mut mem = memory_with(alloc, map.ram, instruction)?;
    put(&mut mem, &map.ram, HANDLER, 4, NOP)?;
    let columns = read_header(alloc, HEADER)?;
    let row = read_row(alloc, &columns, line, 0, 1)?.ok_or("the row is valid")?;
    let mut hart = hart_in(alloc, mem, map, mode, writes)?;
    let step = hart.step(&row)?;
    let outcome = match step.expected {
        Expected::Halted => return Err(Fail::from("the hart has not halted")),
        Expected::Retired(retired) => match retired.effects {
            Ok(effects) => Ok(effects.rd_value),
            Err(cause) => Err(cause),
        },
    };
    let core = core_of(&hart)?;
    Ok((outcome, core.mode, core.pc))
}

/// What a step gives: the value of x12 or the cause of its trap, and the mode and the pc after it.
type After = (Result<u64, Cause>, Mode, u64);

/// A mode, values of registers, an instruction, a row, and what the step gives.
type Case<'a> = (Mode, &'a [(u16, u64)], u64, &'a [u8], After);

const ILLEGAL: Result<u64, Cause> = Err(Cause::IllegalInstruction);

const NEXT: u64 = CODE + 4;

fn hold(rt: &impl Abort, alloc: Global, cases: &[Case]) -> Result<(), Fail> {
    'cases: for (mode, writes, instruction, line, want) in cases {
        let found = outcome_of(alloc, *instruction, *mode, *writes, *line)?;
        assert_eq!(rt; found, *want, "{instruction} in {mode:?}");
    }
    Ok(())
}

/// Counters are open to S by mcounteren, and to U by scounteren too; a core may make each read of
/// time trap, in every mode.
#[test]
fn opens_counters(rt: HostRuntime) -> Result<(), Fail> {
    let seven = b"0,0,,,7,".as_slice();
    let traps = b"0,0,,1,,".as_slice();
    let cases: [Case; 9] = [
        (User, &[], READ_CYCLE, seven, (ILLEGAL, Machine, 0)),
        (
            User,
            &[(MCOUNTEREN, 1)],
            READ_CYCLE,
            seven,
            (ILLEGAL, Machine, 0),
        ),
        (
            User,
            &[(MCOUNTEREN, 1), (SCOUNTEREN, 1)],
            READ_CYCLE,
            seven,
            (Ok(7), User, NEXT),
        ),
        (Supervisor, &[], READ_CYCLE, seven, (ILLEGAL, Machine, 0)),
        (
            Supervisor,
            &[(MCOUNTEREN, 1)],
            READ_CYCLE,
            seven,
            (Ok(7), Supervisor, NEXT),
        ),
        (
            Supervisor,
            &[(MCOUNTEREN, 2)],
            READ_TIME,
            traps,
            (ILLEGAL, Machine, 0),
        ),
        (Machine, &[], READ_TIME, traps, (ILLEGAL, Machine, 0)),
        (
            Supervisor,
            &[(MCOUNTEREN, 7)],
            READ_HPMCOUNTER3,
            seven,
            (ILLEGAL, Machine, 0),
        ),
        (
            Machine,
            &[],
            READ_HPMCOUNTER3,
            seven,
            (Ok(7), Machine, NEXT),
        ),
    ];
    hold(&rt, rt.alloc(), cases.as_slice())
}

/// TVM, TSR and TW make instructions of S trap there; in U they are illegal, but for WFI, which may
/// trap as the core likes.
#[test]
fn traps_in_lower_modes(rt: HostRuntime) -> Result<(), Fail> {
    let traps = b"0,0,,1,,".as_slice();
    let cases: [Case; 16] = [
        (
            Supervisor,
            &[],
            SFENCE_VMA,
            BLANK,
            (Ok(0), Supervisor, NEXT),
        ),
        (
            Supervisor,
            &[(MSTATUS, TVM)],
            SFENCE_VMA,
            BLANK,
            (ILLEGAL, Machine, 0),
        ),
        (
            Machine,
            &[(MSTATUS, TVM)],
            SFENCE_VMA,
            BLANK,
            (Ok(0), Machine, NEXT),
        ),
        (User, &[], SFENCE_VMA, BLANK, (ILLEGAL, Machine, 0)),
        (
            Supervisor,
            &[(SEPC, RETURN)],
            SRET,
            BLANK,
            (Ok(0), User, RETURN),
        ),
        (
            Supervisor,
            &[(SEPC, RETURN), (SSTATUS, SPP)],
            SRET,
            BLANK,
            (Ok(0), Supervisor, RETURN),
        ),
        (
            Supervisor,
            &[(MSTATUS, TSR)],
            SRET,
            BLANK,
            (ILLEGAL, Machine, 0),
        ),
        (Machine, &[(MSTATUS, TSR)], SRET, BLANK, (Ok(0), User, 0)),
        (User, &[], SRET, BLANK, (ILLEGAL, Machine, 0)),
        (Supervisor, &[], MRET, BLANK, (ILLEGAL, Machine, 0)),
        (Supervisor, &[], WFI, traps, (Ok(0), Supervisor, NEXT)),
        (
            Supervisor,
            &[(MSTATUS, TW)],
            WFI,
            traps,
            (ILLEGAL, Machine, 0),
        ),
        (
            Supervisor,
            &[(MSTATUS, TW)],
            WFI,
            BLANK,
            (Ok(0), Supervisor, NEXT),
        ),
        (
            Machine,
            &[(MSTATUS, TW)],
            WFI,
            traps,
            (Ok(0), Machine, NEXT),
        ),
        (User, &[], WFI, traps, (ILLEGAL, Machine, 0)),
        (User, &[], WFI, BLANK, (Ok(0), User, NEXT)),
    ];
    hold(&rt, rt.alloc(), cases.as_slice())
}

/// Calls, illegal instructions and interrupts go to S where they are delegated and come in S or U;
/// the instruction of an interrupt's row is the one at its vector.
#[test]
fn delegates(rt: HostRuntime) -> Result<(), Fail> {
    let user_call = Err(Cause::EnvironmentCallFromUser);
    let supervisor_call = Err(Cause::EnvironmentCallFromSupervisor);
    let interrupt = b"0,0,1,,,".as_slice();
    let timer = b"0,0,1,,,0x80".as_slice();
    let s_timer = [(MIDELEG, 0x20), (MIE, 0x20), (MIP, 0x20), (STVEC, HANDLER)];
    let cases: [Case; 11] = [
        (
            User,
            &[(MTVEC, HANDLER)],
            ECALL,
            BLANK,
            (user_call, Machine, HANDLER),
        ),
        (Supervisor, &[], ECALL, BLANK, (supervisor_call, Machine, 0)),
        (
            User,
            &[(MEDELEG, 0x100), (STVEC, HANDLER)],
            ECALL,
            BLANK,
            (user_call, Supervisor, HANDLER),
        ),
        (
            Supervisor,
            &[(MEDELEG, 0x200), (STVEC, HANDLER)],
            ECALL,
            BLANK,
            (supervisor_call, Supervisor, HANDLER),
        ),
        (
            User,
            &[(MEDELEG, 4), (STVEC, HANDLER)],
            MRET,
            BLANK,
            (ILLEGAL, Supervisor, HANDLER),
        ),
        (
            Machine,
            &[(MEDELEG, 4)],
            0xffff_ffff,
            BLANK,
            (ILLEGAL, Machine, 0),
        ),
        (
            User,
            &s_timer,
            NOP,
            interrupt,
            (Ok(0), Supervisor, HANDLER + 4),
        ),
        (
            Supervisor,
            &s_timer,
            NOP,
            interrupt,
            (Ok(0), Supervisor, NEXT),
        ),
        (Machine, &s_timer, NOP, interrupt, (Ok(0), Machine, NEXT)),
        (
            User,
            &[(MIE, 0x80), (MTVEC, HANDLER)],
            NOP,
            timer,
            (Ok(0), Machine, HANDLER + 4),
        ),
        (
            User,
            &[(MIE, 0x80), (MTVEC, HANDLER)],
            NOP,
            interrupt,
            (Ok(0), User, NEXT),
        ),
    ];
    hold(&rt, rt.alloc(), cases.as_slice())
}

/// The base of M's vectors, and where its timer interrupt goes, whose code is 7.
const VECTORS: u64 = 0x8000_0300;

const TIMER_VECTOR: u64 = VECTORS + 28;

/// The value of mcause for M's timer interrupt.
const TIMER: u64 = (1 << 63) + 7;

/// Whether a row lacks an interrupt, where its instruction is fetched and in which mode, and mepc
/// and mcause after it.
type Entered = (bool, u64, Mode, u64, u64);

/// The second of two rows. The first one runs an instruction in U; calls are delegated to S, M's
/// timer interrupt is enabled and not delegated.
fn entered_second(alloc: Global, first: u64, line: &[u8]) -> Result<Entered, Fail> {
    let map = ram_and_devices()?;
    let mut mem = memory_with(alloc, map.ram, first)?;
    put(&mut mem, &map.ram, HANDLER, 4, NOP)?;
    put(&mut mem, &map.ram, TIMER_VECTOR, 4, NOP)?;
    let writes = [
        (MEDELEG, 0x100),
        (STVEC, HANDLER),
        (MIE, 0x80),
        (MTVEC, VECTORS + 1),
    ];
    let mut hart = hart_in(alloc, mem, map, User, &writes)?;
    let columns = read_header(alloc, HEADER)?;
    let blank = read_row(alloc, &columns, BLANK, 0, 1)?.ok_or("the row is valid")?;
    let row = read_row(alloc, &columns, line, 0, 1)?.ok_or("the row is valid")?;
    let _first = hart.step(&blank)?;
    let step = hart.step(&row)?;
    let csrs = core_of(&hart)?.csrs;
    match step.expected {
        Expected::Halted => Err(Fail::from("the hart has not halted")),
        Expected::Retired(retired) => Ok((
            retired.lacks_interrupt,
            retired.pc,
            retired.mode,
            csrs.get(StoredCsr::Mepc),
            csrs.get(StoredCsr::Mcause),
        )),
    }
}

/// `intr` says that an interrupt was entered, but not in the first row of a trap's handler: there
/// the row must show another address than the handler's.
#[test]
fn enters_interrupts_after_a_trap(rt: HostRuntime) -> Result<(), Fail> {
    let entered = (false, TIMER_VECTOR, Machine, HANDLER, TIMER);
    let handled = (false, HANDLER, Supervisor, 0, 0);
    let cases: [(u64, &[u8], Entered); 7] = [
        (ECALL, b"0,0x8000031c,1,,,0x80", entered),
        (ECALL, b"0,0x80000104,1,,,0x80", entered),
        (ECALL, b"0,0x80000100,1,,,0x80", handled),
        (ECALL, b"0,0x80000100,1,,,0", handled),
        (ECALL, b"0,0x8000031c,0,,,0x80", handled),
        (
            ECALL,
            b"0,0x8000031c,1,,,0",
            (true, HANDLER, Supervisor, 0, 0),
        ),
        // After an instruction that did not trap the row's address does not matter.
        (
            NOP,
            b"0,0x80000004,1,,,0x80",
            (false, TIMER_VECTOR, Machine, NEXT, TIMER),
        ),
    ];
    for (first, line, wanted) in cases {
        let found = entered_second(rt.alloc(), first, line)?;
        assert_eq!(rt; found, wanted, "after {first}");
    }
    Ok(())
}
