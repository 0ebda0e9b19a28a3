// The bytes of the things that a file is made of, put behind the bytes that there are.

ghost use Rattle.std.specs.Prelude.{◌≡◌, ◌++◌, OnOk};
ghost use Rattle.std.specs.List.{flat_map};
ghost use Rattle.std.specs.List.{All};
ghost use Rattle.pi_dextables.specs.Items.{type_list, string_item, member_bytes, encoded_bytes, array_item};
ghost use Rattle.pi_dextables.specs.Writable.{ValueFits};
ghost use Rattle.pi_format.specs.Rules.Values.{value_bytes};

use byteorder::{ByteOrder, LittleEndian};
use pi_dextables::tables::{Member, Value};
use pi_parts::put::{put_half, put_halves, put_text, put_uleb, put_word};
use std::alloc::{AllocError, Global};

/// A list of types.
#[tactic(auto, unfolding(pi_dextables::specs::Items::type_list))]
pub(crate) fn put_type_list(out: &mut Vec<u8>, types: &[u16]) -> Result<(), AllocError>
    ensures { OnOk result (out.new.items ≡ out.old.items ++ type_list types.now) }
{
    put_word(out, types.len())?;
    put_halves(out, types)?;
    Ok(())
}

/// A string.
#[tactic(auto, unfolding(pi_dextables::specs::Items::string_item))]
pub(crate) fn put_string(alloc: Global, out: &mut Vec<u8>, units: &[u16]) -> Result<(), AllocError>
    ensures { OnOk result (out.new.items ≡ out.old.items ++ string_item units.now) }
{
    put_uleb(out, units.len())?;
    put_text(alloc, out, units)?;
    Ok(())
}

/// The entry of a field or a method.
#[tactic(auto, unfolding(pi_dextables::specs::Items::member_bytes))]
fn put_member(out: &mut Vec<u8>, member: &Member) -> Result<(), AllocError>
    ensures { OnOk result (out.new.items ≡ out.old.items ++ member_bytes member.now) }
{
    put_half(out, member.class as usize)?;
    put_half(out, member.kind as usize)?;
    put_word(out, member.name as usize)?;
    Ok(())
}

/// The table of fields or of methods.
pub(crate) fn put_members(out: &mut Vec<u8>, members: &[Member]) -> Result<(), AllocError>
    ensures { OnOk result (out.new.items ≡ out.old.items ++ flat_map member_bytes members.now) }
{
    for member in members {
        put_member(out, member)?;
    }
    Ok(())
}

/// How many bytes the number of a value has.
fn value_bytes(value: &Value) -> usize
    ensures { result ≡ value_bytes value.now.kind value.now.arg }
{
    if value.kind == 0x1e || value.kind == 0x1f {
        0
    } else {
        value.arg as usize + 1
    }
}

/// An encoded value.
#[tactic(auto, unfolding(pi_dextables::specs::Items::encoded_bytes))]
fn put_value(out: &mut Vec<u8>, value: &Value) -> Result<(), AllocError>
    requires { ValueFits value.now }
    ensures { OnOk result (out.new.items ≡ out.old.items ++ encoded_bytes value.now) }
{
    let mut bytes = [0u8; 8];
    LittleEndian::write_u64(&mut bytes, value.number);
    out.extend_from_slice(&[value.arg * 32 + value.kind])?;
    out.extend_from_slice(bytes.split_at(value_bytes(value)).0)?;
    Ok(())
}

/// The values of static fields.
#[tactic(auto, unfolding(pi_dextables::specs::Items::array_item))]
pub(crate) fn put_array(out: &mut Vec<u8>, values: &[Value]) -> Result<(), AllocError>
    requires { All ValueFits values.now }
    ensures { OnOk result (out.new.items ≡ out.old.items ++ array_item values.now) }
{
    put_uleb(out, values.len())?;
    put_values(out, values)?;
    Ok(())
}

/// Encoded values one behind the other.
fn put_values(out: &mut Vec<u8>, values: &[Value]) -> Result<(), AllocError>
    requires { All ValueFits values.now }
    ensures { OnOk result (out.new.items ≡ out.old.items ++ flat_map encoded_bytes values.now) }
{
    for value in values {
        put_value(out, value)?;
    }
    Ok(())
}
