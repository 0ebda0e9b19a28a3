// The payloads of switches and of array data.

ghost use Rattle.std.specs.Prelude.{◌≡◌, ◌++◌, ◌<◌, ◌^◌, IfOk, OnOk, IsTrue, length};
ghost use Rattle.std.specs.List.{All, flat_map};
ghost use Rattle.pi_contents.specs.Asked.{follow_on};
ghost use Rattle.pi_insn.specs.Payloads.{is_width};
ghost use Rattle.pi_classtables.specs.Layout.{word_units, key_units, target_units, first_key, packed_units, sparse_units, byte_units, long_units, item_units, array_units, payload_units, is_scattered, data_fits};

use pi_model::insn::{Case, Insn};
use pi_model::listed::Units;
use std::alloc::{AllocError, Global};

/// Whether each key follows the one before it.
fn follow_on(cases: &[Case]) -> bool
    ensures { result ≡ follow_on cases.now }
{
    let mut rest = cases;
    while let [first, second, ..] = rest {
        if second.key != first.key.wrapping_add(1) {
            return false;
        }
        rest = &rest[1..];
    }
    true
}

/// Whether an instruction is a switch whose keys do not follow each other.
pub fn is_scattered(insn: &Insn) -> bool
    ensures { result ≡ is_scattered insn.now }
{
    match insn {
        Insn::Switch { cases, .. } => !follow_on(cases.as_slice()),
        _ => false,
    }
}

/// A number of 32 bits, the low unit first.
fn put_word(out: &mut Units, n: u32) -> Result<(), AllocError>
    ensures { OnOk result (out.new ≡ out.old ++ word_units n) }
{
    out.extend_from_slice(&[(n % 65536) as u16, (n / 65536) as u16])
}

/// A number of 64 bits, the low unit first.
fn put_long(out: &mut Units, n: u64) -> Result<(), AllocError>
    ensures { OnOk result (out.new ≡ out.old ++ long_units n) }
{
    put_word(out, (n % (1 << 32)) as u32)?;
    put_word(out, (n / (1 << 32)) as u32)?;
    Ok(())
}

/// The keys of a switch.
fn put_keys(out: &mut Units, cases: &[Case]) -> Result<(), AllocError>
    ensures { OnOk result (out.new ≡ out.old ++ key_units cases.now) }
{
    for case in cases {
        put_word(out, case.key)?;
    }
    Ok(())
}

/// The targets of a switch at an address.
fn put_targets(out: &mut Units, at: u32, cases: &[Case]) -> Result<(), AllocError>
    ensures { OnOk result (out.new ≡ out.old ++ target_units at cases.now) }
{
    for case in cases {
        put_word(out, case.to.wrapping_sub(at))?;
    }
    Ok(())
}

/// The first key of a switch, 0 where it has no case.
fn first_key(cases: &[Case]) -> u32
    ensures { result ≡ first_key cases.now }
{
    match cases {
        [case, ..] => case.key,
        [] => 0,
    }
}

/// The payload of a switch at an address whose keys follow each other.
#[tactic(auto, unfolding(pi_classtables::specs::Layout::packed_units))]
fn packed_payload(alloc: Global, at: u32, cases: &[Case]) -> Result<Units, AllocError>
    requires { length cases.now < 65536 }
    ensures { IfOk result (λ units. units ≡ packed_units at cases.now) }
{
    let mut out = Units::from_slice(alloc, &[0x0100, cases.len() as u16])?;
    put_word(&mut out, first_key(cases))?;
    put_targets(&mut out, at, cases)?;
    Ok(out)
}

/// The payload of a switch at an address with all keys.
#[tactic(auto, unfolding(pi_classtables::specs::Layout::sparse_units))]
fn sparse_payload(alloc: Global, at: u32, cases: &[Case]) -> Result<Units, AllocError>
    requires { length cases.now < 65536 }
    ensures { IfOk result (λ units. units ≡ sparse_units at cases.now) }
{
    let mut out = Units::from_slice(alloc, &[0x0200, cases.len() as u16])?;
    put_keys(&mut out, cases)?;
    put_targets(&mut out, at, cases)?;
    Ok(out)
}

/// Items of one byte, two to a unit.
fn put_bytes(out: &mut Units, items: &[u64]) -> Result<(), AllocError>
    requires { All (λ x. x < 256) items.now }
    ensures { OnOk result (out.new ≡ out.old ++ byte_units items.now) }
{
    let mut rest = items;
    while let [low, high, behind @ ..] = rest {
        out.push((*low + 256 * *high) as u16)?;
        rest = behind;
    }
    if let [last] = rest {
        out.push(*last as u16)?;
    }
    Ok(())
}

/// Items of two bytes.
fn put_halves(out: &mut Units, items: &[u64]) -> Result<(), AllocError>
    requires { All (λ x. x < 65536) items.now }
    ensures { OnOk result (out.new ≡ out.old ++ items.now) }
{
    for item in items {
        out.push(*item as u16)?;
    }
    Ok(())
}

/// Items of four bytes.
fn put_words(out: &mut Units, items: &[u64]) -> Result<(), AllocError>
    requires { All (λ x. x < 2 ^ 32) items.now }
    ensures { OnOk result (out.new ≡ out.old ++ flat_map word_units items.now) }
{
    for item in items {
        put_word(out, *item as u32)?;
    }
    Ok(())
}

/// Items of eight bytes.
fn put_longs(out: &mut Units, items: &[u64]) -> Result<(), AllocError>
    ensures { OnOk result (out.new ≡ out.old ++ flat_map long_units items.now) }
{
    for item in items {
        put_long(out, *item)?;
    }
    Ok(())
}

/// Items of so many bytes.
fn put_items(out: &mut Units, width: u16, items: &[u64]) -> Result<(), AllocError>
    requires width { IsTrue (is_width width) }
    requires items { All (λ x. x < 256 ^ width) items.now }
    ensures { OnOk result (out.new ≡ out.old ++ item_units width items.now) }
{
    match width {
        1 => put_bytes(out, items),
        2 => put_halves(out, items),
        4 => put_words(out, items),
        _ => put_longs(out, items),
    }
}

/// The payload of array data.
#[tactic(auto, unfolding(pi_classtables::specs::Layout::array_units))]
fn array_payload(alloc: Global, width: u16, items: &[u64]) -> Result<Units, AllocError>
    requires width { IsTrue (is_width width) }
    requires size { length items.now < 2 ^ 32 }
    requires items { All (λ x. x < 256 ^ width) items.now }
    ensures { IfOk result (λ units. units ≡ array_units width items.now) }
{
    let mut out = Units::from_slice(alloc, &[0x0300, width])?;
    put_word(&mut out, items.len() as u32)?;
    put_items(&mut out, width, items)?;
    Ok(out)
}

/// The payload of an instruction at an address, none for most.
#[tactic(auto, unfolding(pi_classtables::specs::Layout::payload_units))]
pub fn payload(alloc: Global, insn: &Insn, at: u32, sparse: bool) -> Result<Units, AllocError>
    requires { IsTrue (data_fits insn.now) }
    ensures { IfOk result (λ units. units ≡ payload_units sparse at insn.now) }
{
    match insn {
        Insn::Switch { cases, .. } if sparse => sparse_payload(alloc, at, cases.as_slice()),
        Insn::Switch { cases, .. } => packed_payload(alloc, at, cases.as_slice()),
        Insn::FillArray { width, items, .. } => array_payload(alloc, *width, items.as_slice()),
        _ => Ok(Units::new(alloc)),
    }
}
