// The signature and the checksum of a file.

ghost use Rattle.std.specs.Prelude.{◌≡◌, ◌≤◌, ◌++◌, take, drop, length};
ghost use Rattle.byteorder.specs.Endian.{little_bytes};
ghost use Rattle.sha1.specs.Sha1.{sha1};
ghost use Rattle.pi_bytes.specs.Sums.{adler};
ghost use Rattle.pi_dexlay.specs.Layout.{signed_bytes};

use byteorder::{ByteOrder, LittleEndian};
use pi_bytes::sums::adler32;
use sha1::Sha1;

/// Puts the digest of what stands behind it at place 12.
fn put_signature(out: &mut Vec<u8>)
    requires { 32 ≤ length out.old.items }
    ensures { out.new.items ≡ take 12 out.old.items ++ (sha1 (drop 32 out.old.items) ++ drop 32 out.old.items) }
{
    let digest = Sha1::digest(out.as_slice().split_at(32).1);
    out.as_mut_slice()[12..32].copy_from_slice(&digest);
}

/// Puts the checksum of what stands behind it at place 8.
fn put_checksum(out: &mut Vec<u8>)
    requires { 12 ≤ length out.old.items }
    ensures { out.new.items ≡ take 8 out.old.items ++ (little_bytes 4 (adler (drop 12 out.old.items)) ++ drop 12 out.old.items) }
{
    let sum = adler32(out.as_slice().split_at(12).1);
    LittleEndian::write_u32(&mut out.as_mut_slice()[8..12], sum);
}

/// Puts the signature and the checksum in front of what stands from place 32 on.
pub(crate) fn sign(out: &mut Vec<u8>)
    requires { 32 ≤ length out.old.items }
    ensures { out.new.items ≡ take 8 out.old.items ++ signed_bytes (drop 32 out.old.items) }
{
    put_signature(out);
    put_checksum(out);
}
