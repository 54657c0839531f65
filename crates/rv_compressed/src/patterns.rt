//! The rows of the table of compressed instructions, as masks: the bits that each fixes, and which
//! of its parcels are reserved. `expansion` holds each row to its columns in `specs/Table.antt`.

ghost use Rattle.std.specs.Prelude.{◌≡◌, ◌≤◌, drop};
ghost use Rattle.rv_compressed.specs.Patterns.{holds, meets};
ghost use Rattle.rv_compressed.specs.Table.{expansion_by};
ghost use Rattle.rv_compressed.specs.declared.patterns.TheConstants.{PATTERNS};

use crate::compressed_op::CompressedOp;

/// A row of the table: a parcel is this instruction where it equals `bits` under `mask` and the
/// condition holds; where only the condition fails, it is reserved or another row's.
#[derive(Clone, Copy, Debug)]
pub struct Pattern {
    pub mask: u16,
    pub bits: u16,
    pub condition: Condition,
    pub op: CompressedOp,
}

/// What a row asks for beside its fixed bits.
#[derive(Clone, Copy, Debug)]
pub enum Condition {
    Always,
    /// Some bit under the mask is set.
    NotZero(u16),
    /// Some bit under the mask is set, and rd is not x2.
    NotZeroNorX2(u16),
}

impl Condition {
    fn holds(self, parcel: u16) -> bool
        ensures { result ≡ holds self parcel }
    {
        match self {
            Condition::Always => true,
            Condition::NotZero(field) => parcel & field != 0,
            Condition::NotZeroNorX2(field) => parcel & field != 0 && parcel & 0x0f80 != 0x0100,
        }
    }
}

impl Pattern {
    /// Whether the parcel is this row's.
    pub fn meets(&self, parcel: u16) -> bool
        ensures { result ≡ meets self.now parcel }
    {
        parcel & self.mask == self.bits && self.condition.holds(parcel)
    }
}

/// Rows as `mask bits condition op`.
macro_rules! rows {
    ($($mask:literal $bits:literal $condition:expr => $op:ident),* $(,)?) => {
        [$(Pattern {
            mask: $mask,
            bits: $bits,
            condition: $condition,
            op: CompressedOp::$op,
        }),*]
    };
}

/// All rows.
pub const PATTERNS: [Pattern; 32] = rows![
    0xe003 0x0000 Condition::NotZero(0x1fe0) => Addi4spn,
    0xe003 0x4000 Condition::Always => Lw,
    0xe003 0x6000 Condition::Always => Ld,
    0xe003 0xc000 Condition::Always => Sw,
    0xe003 0xe000 Condition::Always => Sd,
    0xe003 0x0001 Condition::Always => Addi,
    0xe003 0x2001 Condition::NotZero(0x0f80) => Addiw,
    0xe003 0x4001 Condition::Always => Li,
    0xef83 0x6101 Condition::NotZero(0x107c) => Addi16sp,
    0xe003 0x6001 Condition::NotZeroNorX2(0x107c) => Lui,
    0xec03 0x8001 Condition::Always => Srli,
    0xec03 0x8401 Condition::Always => Srai,
    0xec03 0x8801 Condition::Always => Andi,
    0xfc63 0x8c01 Condition::Always => Sub,
    0xfc63 0x8c21 Condition::Always => Xor,
    0xfc63 0x8c41 Condition::Always => Or,
    0xfc63 0x8c61 Condition::Always => And,
    0xfc63 0x9c01 Condition::Always => Subw,
    0xfc63 0x9c21 Condition::Always => Addw,
    0xe003 0xa001 Condition::Always => J,
    0xe003 0xc001 Condition::Always => Beqz,
    0xe003 0xe001 Condition::Always => Bnez,
    0xe003 0x0002 Condition::Always => Slli,
    0xe003 0x4002 Condition::NotZero(0x0f80) => Lwsp,
    0xe003 0x6002 Condition::NotZero(0x0f80) => Ldsp,
    0xf07f 0x8002 Condition::NotZero(0x0f80) => Jr,
    0xf003 0x8002 Condition::NotZero(0x007c) => Mv,
    0xffff 0x9002 Condition::Always => Ebreak,
    0xf07f 0x9002 Condition::NotZero(0x0f80) => Jalr,
    0xf003 0x9002 Condition::NotZero(0x007c) => Add,
    0xe003 0xc002 Condition::Always => Swsp,
    0xe003 0xe002 Condition::Always => Sdsp,
];

/// The bits of funct3 and of the quadrant, which each row fixes.
const GROUP: u16 = 0xe003;

/// The first row of each funct3 and quadrant, at 4 times the one and the other; 32 where there is
/// none.
const FIRST_ROWS: [u8; 32] = [
    0, 5, 22, 32, // 0
    32, 6, 32, 32, // 1
    1, 7, 23, 32, // 2
    2, 8, 24, 32, // 3
    32, 10, 25, 32, // 4
    32, 19, 32, 32, // 5
    3, 20, 30, 32, // 6
    4, 21, 31, 32, // 7
];

/// The rows from the first of the parcel's funct3 and quadrant on: none before them is met.
#[tactic(auto, unfolding(crate::specs::Table::expansion_by))]
pub fn rows_from(parcel: u16) -> &'static [Pattern]
    ensures { expansion_by result.now parcel ≡ expansion_by PATTERNS parcel }
{
    &PATTERNS[first_row(parcel)..]
}

/// The place of the first row of the parcel's funct3 and quadrant.
fn first_row(parcel: u16) -> usize
    ensures small { result ≤ 32 }
    ensures passed { expansion_by (drop result PATTERNS) parcel ≡ expansion_by PATTERNS parcel }
{
    let group = parcel & GROUP;
    usize::from(FIRST_ROWS[usize::from(group / 2048 + group % 4)])
}
