//! A plain memory over an ordered map, for tests.

ghost use Rattle.std.specs.Prelude.{◌<◌, ℕ, unwrap_or};
ghost use Rattle.std.specs.BTreeMap.{get};
ghost use Rattle.std.specs.Ordering.{nat_cmp};

use crate::numbers::{ByteAt, ByteMem, number_of, put_number};
use hart_words::{NoMemory, PAGE_SIZE, PhysMem, Span};
use std::alloc::Global;
use std::collections::BTreeMap;

/// Bytes by their address; 0 where there is none.
#[derive(Drop)]
pub struct MapMem {
    ram: Span,
    bytes: BTreeMap<u64, u8>,
    ghost small: { (pa : ℕ) → unwrap_or (get nat_cmp bytes pa) 0 < 256 },
}

impl MapMem {
    ghost use Rattle.std.specs.Prelude.{◌≡◌, ℕ, true, OnOk, IsOk};
    ghost use Rattle.page_layers.specs.Memories.{map_bytes, map_has_byte};

    /// A memory of zeros.
    #[tactic(auto, unfolding(crate::specs::Memories::map_bytes))]
    pub fn zeros(alloc: Global, ram: Span) -> MapMem
        ensures bytes { map_bytes result ≡ (λ _. 0) }
        ensures ram { result.ram ≡ ram }
    {
        MapMem {
            ram,
            bytes: BTreeMap::new(alloc),
        }
    }

    /// Gives an address a byte of its own, unless it has one.
    fn hold(&mut self, pa: u64) -> Result<(), NoMemory>
        ensures bytes { map_bytes self.new ≡ map_bytes self.old }
        ensures ok { OnOk result (map_has_byte self.new pa ≡ true) }
        ensures held { map_has_byte self.old pa ≡ true → IsOk result }
        ensures keeps { (at : ℕ) → map_has_byte self.old at ≡ true
            → map_has_byte self.new at ≡ true }
        ensures ram { self.new.ram ≡ self.old.ram }
    {
        if self.bytes.contains_key(&pa) {
            return Ok(());
        }
        self.bytes.insert(pa, 0)?;
        Ok(())
    }
}

impl ByteAt for MapMem {
    ghost use Rattle.page_layers.specs.Memories.{map_bytes};

    ghost bytes = { map_bytes };

    #[tactic(auto, unfolding(crate::specs::Memories::map_bytes))]
    fn byte(&self, pa: u64) -> u8 {
        match self.bytes.get(&pa) {
            Some(byte) => *byte,
            None => 0,
        }
    }
}

impl ByteMem for MapMem {
    ghost use Rattle.page_layers.specs.Memories.{map_bytes, HasPage};

    ghost bytes = { map_bytes };

    ghost ram = { λ mem. mem.ram };

    ghost admits = { HasPage };

    fn admit(&mut self, pa: u64) -> Result<(), NoMemory> {
        let first = pa - pa % PAGE_SIZE;
        for k in 0..PAGE_SIZE {
            self.hold(first + k)?;
        }
        Ok(())
    }

    fn set(&mut self, pa: u64, value: u8) {
        match self.bytes.get_mut(&pa) {
            Some(byte) => *byte = value,
            None => unreachable!(),
        }
    }
}

impl PhysMem for MapMem {
    ghost use Rattle.page_layers.specs.Memories.{map_bytes, HasPage};

    ghost bytes = { map_bytes };

    ghost ram = { λ mem. mem.ram };

    ghost is_ready = { HasPage };

    ghost bytes_are_bytes = { λ mem at. unfold map_bytes in mem.small at };

    fn read(&self, pa: u64, len: u8) -> u64 {
        number_of(self, pa, len)
    }

    fn write(&mut self, pa: u64, len: u8, value: u64) -> Result<(), NoMemory> {
        self.admit(pa)?;
        put_number(self, pa, len, value);
        Ok(())
    }

    fn ready(&mut self, pa: u64) -> Result<(), NoMemory> {
        self.admit(pa)
    }

    fn copy(&self) -> Result<MapMem, NoMemory> {
        Ok(MapMem {
            ram: self.ram,
            bytes: self.bytes.clone()?,
        })
    }
}
