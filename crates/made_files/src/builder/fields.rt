// What is written into a file.
ghost use Rattle.std.specs.Prelude.{◌≡◌, ◌+◌, ◌*◌, min, length, OnOk, vec_len};
ghost use Rattle.made_files.specs.Lengths.{bit_count};

use crate::builder::Builder;
use std::alloc::{AllocError, Global};

impl Builder {
    /// A file with nothing in it.
    pub fn new(heap: Global) -> Builder
        ensures { bit_count result ≡ 0 }
    {
        Builder {
            bytes: Vec::new(heap),
            free: 0,
        }
    }

    /// One bit more.
    fn bit(&mut self, bit: usize) -> Result<(), AllocError>
        ensures { OnOk result (bit_count self.new ≡ bit_count self.old + 1) }
    {
        if self.free == 0 {
            self.bytes.push(0)?;
            self.free = 8;
        }
        self.free -= 1;
        if let Some(last) = self.bytes.last_mut() {
            *last |= ((bit % 2) as u8) << self.free;
        }
        Ok(())
    }

    /// The low `width` bits of a number, the most significant first.
    pub fn put(&mut self, width: u32, value: usize) -> Result<(), AllocError>
        ensures { OnOk result (bit_count self.new ≡ bit_count self.old + min width 32) }
    {
        let width = width.min(32);
        for place in 0..width {
            self.bit(value >> (width - 1 - place))?;
        }
        Ok(())
    }

    /// The filling bits up to a whole byte.
    pub fn fill(&mut self)
        ensures bytes { self.new.bytes ≡ self.old.bytes }
        ensures whole { bit_count self.new ≡ 8 * vec_len self.old.bytes }
    {
        self.free = 0;
    }

    /// The edition, the counts, and options of these sizes with names of one byte.
    pub fn put_options(&mut self, sizes: &[u8], tables: usize) -> Result<(), AllocError>
        ensures { OnOk result (bit_count self.new ≡ bit_count self.old + (19 + 10 * length sizes.now)) }
    {
        self.put(8, 1)?;
        self.put(5, sizes.len())?;
        self.put(6, tables)?;
        for size in sizes {
            self.put(5, size.wrapping_sub(1) as usize)?;
            self.put(5, 1)?;
        }
        Ok(())
    }

    /// The options of a table, and how many rows it has.
    pub fn put_scope(&mut self, scope: &[usize], rows: usize) -> Result<(), AllocError>
        ensures { OnOk result (bit_count self.new ≡ bit_count self.old + (14 + 5 * length scope.now)) }
    {
        self.put(3, scope.len().wrapping_sub(1))?;
        for option in scope {
            self.put(5, *option)?;
        }
        self.put(11, rows)
    }

    /// The values of a row.
    pub fn put_row(&mut self, row: &[u8]) -> Result<(), AllocError>
        ensures { OnOk result (bit_count self.new ≡ bit_count self.old + 5 * length row.now) }
    {
        for value in row {
            self.put(5, *value as usize)?;
        }
        Ok(())
    }

    /// The filling and the bytes of the names.
    pub fn put_names(&mut self, names: &[u8]) -> Result<(), AllocError>
        ensures { OnOk result (bit_count self.new ≡ 8 * (vec_len self.old.bytes + length names.now)) }
    {
        self.fill();
        for letter in names {
            self.put(8, *letter as usize)?;
        }
        Ok(())
    }

    /// The bytes of the file.
    pub fn finish(self) -> Vec<u8>
        ensures { result ≡ self.bytes }
    {
        let Builder { bytes, free: _ } = self;
        bytes
    }
}
