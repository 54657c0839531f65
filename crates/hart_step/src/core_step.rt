//! A hart without its memory, as one of several that share one.

ghost use Rattle.std.specs.Prelude.{refl};
ghost use Rattle.hart_step.specs.Cores.{IsSound};
ghost use Rattle.hart_step.specs.Meanings.{core_meaning, stays_sound};

use crate::state::Core;
use hart_words::{NoMemory, PhysMem, Wrote};
use rvfi_rows::{CoreStep, KeptRow, Row, Stepped};

impl<M: PhysMem> CoreStep<M> for Core {
    ghost meaning = { core_meaning };

    ghost is_sound = { IsSound };

    fn step_into(&mut self, mem: &mut M, row: &Row, stepped: &mut Stepped) -> Result<(), NoMemory> {
        Core::step_into(self, mem, row, stepped)
    }

    fn lose(&mut self, pa: u64, len: u8) {
        self.reservation.lose(pa, len);
    }

    fn is_plain(&self, row: &Row) -> bool {
        Core::is_plain(self, row)
    }

    fn take_shown(&mut self, mem: &mut M, row: &Row) -> Result<Wrote, NoMemory> {
        self.take_row(mem, row)
    }

    fn take_quiet(&mut self, row: &KeptRow<'_>) -> bool {
        self.take_quiet_row(row)
    }

    fn same(&self, other: &Core) -> bool {
        self.is_same(other)
    }

    fn copy(&self) -> Result<Core, NoMemory> {
        Ok(*self)
    }

    ghost stays_sound = { stays_sound };

    ghost keeps_map = { λ core pa len. refl };

    ghost keeps_choices = { λ core pa len. refl };
}
