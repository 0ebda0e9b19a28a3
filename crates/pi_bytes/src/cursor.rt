// A place in bytes that moves behind what is read. docs/dex-format.md states how numbers stand in bytes.

ghost use Rattle.std.specs.Prelude.{◌≡◌, ◌+◌, ◌<◌, ◌≤◌, ◌↔◌, length, take, slice_index, IsErr, IfErr, IfOk, OnOk, OnErr};
ghost use Rattle.std.specs.Result.{ForOk};
ghost use Rattle.byteorder.specs.Endian.{little_number};
ghost use Rattle.pi_bytes.specs.Place.{bytes_from, place_behind, bytes_between};
ghost use Rattle.pi_bytes.specs.Reading.{Gives, number_at, piece_at, reading_at};
ghost use Rattle.pi_bytes.specs.Leb.{uleb_at, sleb_at, sevens, signed_sevens, ends_uleb, ends_sleb, IsWhole, EndsInside, IsTooLong};

use crate::fault::ReadFault;
use crate::leb::{sleb_of, uleb_of};
use byteorder::{ByteOrder, LittleEndian};
use std::marker::Model;

/// A place in lent bytes. Each call reads what stands there and moves behind it, or refuses and leaves the place alone.
#[derive(Debug, Drop)]
pub struct Cursor<'a> {
    bytes: &'a [u8],
    at: usize,
}

impl<'a> Model for Cursor<'a> {
    ghost use Rattle.std.specs.Prelude.{◌≤◌, length};
    ghost use Rattle.pi_bytes.specs.Place.{Place};

    ghost Value = { Place };

    ghost view = { λ c. record { bytes = c.bytes.now; at = c.at } };

    ghost invariant = { λ c. c.at ≤ length c.bytes.now };
}

impl<'a> Cursor<'a> {
    /// The cursor at an offset into the bytes, which may be their end.
    pub fn new(bytes: &'a [u8], at: usize) -> Cursor<'a>
        requires { at ≤ length bytes.now }
        ensures { result ≡ record { bytes = bytes.now; at = at } }
    {
        Cursor { bytes, at }
    }

    /// The offset of the next byte to be read.
    pub fn at(&self) -> usize
        ensures value { result ≡ self.now.at }
        ensures within { result ≤ length self.now.bytes }
    {
        self.at
    }

    /// The bytes from the place on.
    fn ahead(&self) -> &'a [u8]
        ensures { result.now ≡ bytes_from self.now }
    {
        self.bytes.split_at(self.at).1
    }

    /// Moves behind a value that was read at the place, with the number of its bytes.
    fn move_behind<T: Copy>(&mut self, read: Result<(T, usize), ReadFault>) -> Result<T, ReadFault>
        requires { ForOk read (λ x. x.1 ≤ length (bytes_from self.old)) }
        ensures exact { Gives (λ x. x) (reading_at self.old read) self.new result }
        ensures stands { OnErr result (self.new ≡ self.old) }
        ensures within { self.new.at ≤ length self.new.bytes }
    {
        let at = self.at;
        let (value, taken) = read?;
        self.at = at + taken;
        Ok(value)
    }

    /// The next bytes, that many of them, lent from where they stand; Short where fewer are left.
    pub fn take(&mut self, n: usize) -> Result<&'a [u8], ReadFault>
        ensures exact { Gives (λ piece. piece.now) (piece_at n self.old) self.new result }
        ensures piece { IfOk result (λ piece. piece.now ≡ take n (bytes_from self.old)) }
        ensures moved { OnOk result (self.new ≡ place_behind n self.old) }
        ensures fault { IfErr result (λ fault. fault ≡ ReadFault.Short) }
        ensures short { IsErr result ↔ (length self.old.bytes < self.old.at + n) }
        ensures stands { OnErr result (self.new ≡ self.old) }
        ensures within { self.new.at ≤ length self.new.bytes }
    {
        let ahead = self.ahead();
        if ahead.len() < n {
            return Err(ReadFault::Short);
        }
        self.at += n;
        Ok(ahead.split_at(n).0)
    }

    /// The next byte; Short where none is left.
    pub fn u8(&mut self) -> Result<u8, ReadFault>
        ensures exact { Gives (λ x. x) (number_at 1 self.old) self.new result }
        ensures value { IfOk result (λ x. x ≡ slice_index self.old.bytes self.old.at) }
        ensures moved { OnOk result (self.new ≡ place_behind 1 self.old) }
        ensures fault { IfErr result (λ fault. fault ≡ ReadFault.Short) }
        ensures short { IsErr result ↔ (length self.old.bytes < self.old.at + 1) }
        ensures stands { OnErr result (self.new ≡ self.old) }
        ensures within { self.new.at ≤ length self.new.bytes }
    {
        let ahead = self.ahead();
        if ahead.is_empty() {
            return Err(ReadFault::Short);
        }
        self.at += 1;
        Ok(ahead[0])
    }

    /// The number of 16 bits in the next two bytes, low byte first; Short where fewer are left.
    pub fn u16(&mut self) -> Result<u16, ReadFault>
        ensures exact { Gives (λ x. x) (number_at 2 self.old) self.new result }
        ensures value { IfOk result (λ x. x ≡ little_number 2 (bytes_from self.old)) }
        ensures moved { OnOk result (self.new ≡ place_behind 2 self.old) }
        ensures fault { IfErr result (λ fault. fault ≡ ReadFault.Short) }
        ensures short { IsErr result ↔ (length self.old.bytes < self.old.at + 2) }
        ensures stands { OnErr result (self.new ≡ self.old) }
        ensures within { self.new.at ≤ length self.new.bytes }
    {
        let ahead = self.ahead();
        if ahead.len() < 2 {
            return Err(ReadFault::Short);
        }
        self.at += 2;
        Ok(LittleEndian::read_u16(ahead))
    }

    /// The number of 32 bits in the next four bytes, low byte first; Short where fewer are left.
    pub fn u32(&mut self) -> Result<u32, ReadFault>
        ensures exact { Gives (λ x. x) (number_at 4 self.old) self.new result }
        ensures value { IfOk result (λ x. x ≡ little_number 4 (bytes_from self.old)) }
        ensures moved { OnOk result (self.new ≡ place_behind 4 self.old) }
        ensures fault { IfErr result (λ fault. fault ≡ ReadFault.Short) }
        ensures short { IsErr result ↔ (length self.old.bytes < self.old.at + 4) }
        ensures stands { OnErr result (self.new ≡ self.old) }
        ensures within { self.new.at ≤ length self.new.bytes }
    {
        let ahead = self.ahead();
        if ahead.len() < 4 {
            return Err(ReadFault::Short);
        }
        self.at += 4;
        Ok(LittleEndian::read_u32(ahead))
    }

    /// The uleb128 number: seven bits a byte, low ones first, in at most five bytes, also where fewer would do.
    ///
    /// Short where the bytes end inside it, LongLeb where a fifth byte is above 0x0f.
    #[tactic(auto, unfolding(crate::specs::Leb::uleb_at))]
    pub fn uleb(&mut self) -> Result<u32, ReadFault>
        ensures exact { Gives (λ x. x) (uleb_at self.old) self.new result }
        ensures value { IfOk result (λ x. x ≡ sevens (bytes_between self.old self.new)) }
        ensures whole { OnOk result (IsWhole ends_uleb 4 (bytes_between self.old self.new)) }
        ensures moved { OnOk result (self.new ≡ place_behind (length (bytes_between self.old self.new)) self.old) }
        ensures short { (result ≡ Err ReadFault.Short) ↔ EndsInside 4 (bytes_from self.old) }
        ensures long { (result ≡ Err ReadFault.LongLeb) ↔ IsTooLong ends_uleb 4 (bytes_from self.old) }
        ensures stands { OnErr result (self.new ≡ self.old) }
        ensures within { self.new.at ≤ length self.new.bytes }
    {
        let read = uleb_of(self.ahead());
        self.move_behind(read)
    }

    /// The sleb128 number: as a uleb128 number, but the top bit of the last seven is its sign.
    ///
    /// Short where the bytes end inside it, LongLeb where a fifth byte is neither up to 0x07 nor 0x78 to 0x7f.
    #[tactic(auto, unfolding(crate::specs::Leb::sleb_at))]
    pub fn sleb(&mut self) -> Result<i32, ReadFault>
        ensures exact { Gives (λ x. x) (sleb_at self.old) self.new result }
        ensures value { IfOk result (λ x. x ≡ signed_sevens (bytes_between self.old self.new)) }
        ensures whole { OnOk result (IsWhole ends_sleb 4 (bytes_between self.old self.new)) }
        ensures moved { OnOk result (self.new ≡ place_behind (length (bytes_between self.old self.new)) self.old) }
        ensures short { (result ≡ Err ReadFault.Short) ↔ EndsInside 4 (bytes_from self.old) }
        ensures long { (result ≡ Err ReadFault.LongLeb) ↔ IsTooLong ends_sleb 4 (bytes_from self.old) }
        ensures stands { OnErr result (self.new ≡ self.old) }
        ensures within { self.new.at ≤ length self.new.bytes }
    {
        let read = sleb_of(self.ahead());
        self.move_behind(read)
    }
}
