// Reads and writes of numbers of one, two, four and eight bytes, the low byte first.

ghost use Rattle.std.specs.Prelude.{◌≡◌, ◌%◌, ◌≤◌, length};
ghost use Rattle.byteorder.specs.Endian.{little_number, little_bytes};
ghost use Rattle.pi_memory.specs.Memory.{holder, bytes_at, with_bytes_at, IsBelow, IsOn};

use crate::memory::Memory;
use byteorder::{ByteOrder, LittleEndian};
use pi_model::numbers::Addr;

impl<'a> Memory<'a> {
    fn part(&self, at: Addr, n: u32) -> &[u8]
        requires { IsBelow self.now.spaces at.0 n }
        ensures value { result.now ≡ bytes_at self.now.spaces at.0 n }
        ensures long { length result.now ≡ n }
    {
        self.ranges[self.holder(at, n)].part(at.0, n)
    }

    /// The byte at an address.
    pub fn read8(&self, at: Addr) -> u8
        requires { IsBelow self.now.spaces at.0 1 }
        ensures { result ≡ little_number 1 (bytes_at self.now.spaces at.0 1) }
    {
        self.part(at, 1)[0]
    }

    /// The number in two bytes from an address, the low byte first.
    pub fn read16(&self, at: Addr) -> u16
        requires aligned { at.0 % 2 ≡ 0 }
        requires below { IsBelow self.now.spaces at.0 2 }
        ensures { result ≡ little_number 2 (bytes_at self.now.spaces at.0 2) }
    {
        LittleEndian::read_u16(self.part(at, 2))
    }

    /// The number in four bytes from an address, the low byte first.
    pub fn read32(&self, at: Addr) -> u32
        requires aligned { at.0 % 4 ≡ 0 }
        requires below { IsBelow self.now.spaces at.0 4 }
        ensures { result ≡ little_number 4 (bytes_at self.now.spaces at.0 4) }
    {
        LittleEndian::read_u32(self.part(at, 4))
    }

    /// The number in eight bytes from an address, the low byte first.
    pub fn read64(&self, at: Addr) -> u64
        requires aligned { at.0 % 8 ≡ 0 }
        requires below { IsBelow self.now.spaces at.0 8 }
        ensures { result ≡ little_number 8 (bytes_at self.now.spaces at.0 8) }
    {
        LittleEndian::read_u64(self.part(at, 8))
    }

    fn write(&mut self, at: Addr, bytes: &[u8])
        requires short { length bytes.now ≤ 8 }
        requires below { IsBelow self.old.spaces at.0 (length bytes.now) }
        requires inside { IsOn self.old.undo (holder self.old.spaces at.0 (length bytes.now)) }
        ensures stored { self.new.spaces ≡ with_bytes_at self.old.spaces at.0 bytes.now }
        ensures pending { self.new.undo ≡ self.old.undo }
    {
        let k = self.holder(at, bytes.len() as u32);
        self.ranges[k].put(at.0, bytes);
    }

    /// Stores a byte at an address.
    pub fn write8(&mut self, at: Addr, v: u8)
        requires below { IsBelow self.old.spaces at.0 1 }
        requires inside { IsOn self.old.undo (holder self.old.spaces at.0 1) }
        ensures stored { self.new.spaces ≡ with_bytes_at self.old.spaces at.0 (little_bytes 1 v) }
        ensures pending { self.new.undo ≡ self.old.undo }
    {
        self.write(at, &[v]);
    }

    /// Stores a number in two bytes from an address, the low byte first.
    pub fn write16(&mut self, at: Addr, v: u16)
        requires aligned { at.0 % 2 ≡ 0 }
        requires below { IsBelow self.old.spaces at.0 2 }
        requires inside { IsOn self.old.undo (holder self.old.spaces at.0 2) }
        ensures stored { self.new.spaces ≡ with_bytes_at self.old.spaces at.0 (little_bytes 2 v) }
        ensures pending { self.new.undo ≡ self.old.undo }
    {
        self.write(at, &v.to_le_bytes());
    }

    /// Stores a number in four bytes from an address, the low byte first.
    pub fn write32(&mut self, at: Addr, v: u32)
        requires aligned { at.0 % 4 ≡ 0 }
        requires below { IsBelow self.old.spaces at.0 4 }
        requires inside { IsOn self.old.undo (holder self.old.spaces at.0 4) }
        ensures stored { self.new.spaces ≡ with_bytes_at self.old.spaces at.0 (little_bytes 4 v) }
        ensures pending { self.new.undo ≡ self.old.undo }
    {
        self.write(at, &v.to_le_bytes());
    }

    /// Stores a number in eight bytes from an address, the low byte first.
    pub fn write64(&mut self, at: Addr, v: u64)
        requires aligned { at.0 % 8 ≡ 0 }
        requires below { IsBelow self.old.spaces at.0 8 }
        requires inside { IsOn self.old.undo (holder self.old.spaces at.0 8) }
        ensures stored { self.new.spaces ≡ with_bytes_at self.old.spaces at.0 (little_bytes 8 v) }
        ensures pending { self.new.undo ≡ self.old.undo }
    {
        self.write(at, &v.to_le_bytes());
    }
}
