//! The run of the loop, row by row.

ghost use Rattle.std.specs.Prelude.{◌≡◌, ◌≢◌, ◌+◌};
ghost use Rattle.trace_maker.specs.Rows.{first_row, made_row, turn_row};
ghost use Rattle.trace_maker.specs.Runs.{IsBefore};

use crate::instructions::{AUIPC, JAL, LD, SD, XOR, addi, immediate};
use crate::made_row::MadeRow;

/// The address of the 8 bytes that the loop stores and loads.
const CELL: u64 = 0x8000_1000;
/// The address of ADDI, with which a turn begins.
const LOOP_START: u64 = 0x8000_0004;

/// The loop between two rows, by the registers that its turns change.
#[derive(Drop)]
pub struct Run {
    /// Of which ADDI takes the low 11 bits.
    pub number: u32,
    pub x1: u64,
    pub x3: u64,
}

impl Run {
    /// The registers before the first row.
    pub fn at_reset(number: u32) -> Run
        ensures number { result.number ≡ number }
        ensures before { IsBefore result 0 }
    {
        Run {
            number,
            x1: 0,
            x3: 0,
        }
    }

    /// Goes on by a row, and gives it.
    pub fn step(&mut self, order: u64) -> MadeRow
        requires { IsBefore self.old order }
        ensures number { self.new.number ≡ self.old.number }
        ensures before { IsBefore self.new (order + 1) }
        ensures row { result ≡ made_row self.old.number order }
    {
        if order == 0 {
            return first_row();
        }
        self.go_on(order);
        self.row(order, (order - 1) % 5)
    }

    /// Begins a turn where the row is its first.
    fn go_on(&mut self, order: u64)
        requires not_zero { order ≢ 0 }
        requires before { IsBefore self.old order }
        ensures number { self.new.number ≡ self.old.number }
        ensures before { IsBefore self.new (order + 1) }
    {
        if (order - 1) % 5 != 0 {
            return;
        }
        self.x1 = self.x1.wrapping_add(u64::from(immediate(self.number)));
        self.x3 ^= self.x1;
    }

    /// The row at a place of this turn, from 0.
    #[tactic(auto, unfolding(crate::specs::Rows::turn_row))]
    fn row(&self, order: u64, place: u64) -> MadeRow
        ensures { result ≡ turn_row self.now.number self.now.x1 self.now.x3 order place }
    {
        match place {
            0 => MadeRow {
                rd_addr: 1,
                rd_wdata: self.x1,
                ..MadeRow::bare(order, addi(self.number), LOOP_START)
            },
            1 => MadeRow {
                rd_addr: 3,
                rd_wdata: self.x3,
                ..MadeRow::bare(order, XOR, LOOP_START + 4)
            },
            2 => MadeRow {
                mem_addr: CELL,
                mem_wmask: 0xff,
                mem_wdata: self.x3,
                mem_paddr: CELL,
                ..MadeRow::bare(order, SD, LOOP_START + 8)
            },
            3 => MadeRow {
                rd_addr: 4,
                rd_wdata: self.x3,
                mem_addr: CELL,
                mem_rmask: 0xff,
                mem_rdata: self.x3,
                mem_paddr: CELL,
                ..MadeRow::bare(order, LD, LOOP_START + 12)
            },
            _ => MadeRow {
                pc_wdata: LOOP_START,
                ..MadeRow::bare(order, JAL, LOOP_START + 16)
            },
        }
    }
}

/// The row of AUIPC, which puts the address of those bytes into x2.
fn first_row() -> MadeRow
    ensures { result ≡ first_row }
{
    MadeRow {
        rd_addr: 2,
        rd_wdata: CELL,
        ..MadeRow::bare(0, AUIPC, 0x8000_0000)
    }
}
