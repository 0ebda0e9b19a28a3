// Whether a row of class data holds. docs/dex-format.md states what is asked of each list.

ghost use Rattle.std.specs.Prelude.{◌≡◌, ◌<◌, ◌==◌, ◌&&◌, not, length, true, IsTrue};
ghost use Rattle.pi_bytes.specs.Numbers.{word_end};
ghost use Rattle.pi_format.specs.Tables.{count_at, class_defs, string_ids, proto_ids, field_ids, method_ids};
ghost use Rattle.pi_format.specs.Rules.Entries.{list_fits, list_at};
ghost use Rattle.pi_format.specs.Rules.Descriptors.{is_void};
ghost use Rattle.pi_format.specs.Rules.Members.{member_entry, proto_entry};
ghost use Rattle.pi_format.specs.Rules.ClassData.{owner, is_field_of, is_method_of, listed_method, is_constructor, is_initialiser, is_direct, code_agrees, has_no_params, method_proto, initialiser_fits, constructor_fits, interface_fits, method_fits, row_holds};
ghost use Rattle.pi_format.specs.declared.lists.MemberList.TheVariants.{StaticFields, InstanceFields, DirectMethods, VirtualMethods};

use crate::flags::AccessFlags;
use pi_bytes::numbers::word;
use pi_dexraw::{Member, Raw};
use pi_format::lists::MemberList;
use std::marker::Model;

/// The class that lists members: its type, and whether it is an interface.
#[derive(Drop)]
pub(crate) struct Owner {
    class: u32,
    interface: bool,
}

impl Model for Owner {
    ghost use Rattle.pi_format.specs.Rules.ClassData.{Owner};

    ghost Value = { Owner };

    ghost view = { λ o. record { class = o.class; interface = o.interface } };
}

/// A row as it was read. Its number may be one that no table has.
#[derive(Drop)]
pub(crate) struct ReadRow {
    pub(crate) id: u64,
    pub(crate) flags: u32,
    pub(crate) code: u32,
}

impl Model for ReadRow {
    ghost use Rattle.pi_format.specs.Rules.Rows.{MemberRow};

    ghost Value = { MemberRow };

    ghost view = { λ row. record { id = row.id; flags = row.flags; code = row.code } };
}

/// The class of a definition.
pub(crate) fn owner_of(raw: &Raw<'_>, i: u32) -> Owner
    requires { i < count_at raw.now class_defs }
    ensures { result ≡ owner raw.now i }
{
    let def = raw.class_entry(i);
    Owner {
        class: def.class,
        interface: AccessFlags(def.flags).is_interface(),
    }
}

/// Whether there is a field of that number, and it belongs to a class.
fn is_field(raw: &Raw<'_>, class: u32, id: u64) -> bool
    ensures value { result ≡ is_field_of raw.now class id }
    ensures small { IsTrue result → id < word_end }
{
    id < raw.fields() as u64 && raw.field_entry(id as u32).class == class
}

/// Whether there is a method of that number, and it belongs to a class.
fn is_method(raw: &Raw<'_>, class: u32, id: u64) -> bool
    ensures value { result ≡ is_method_of raw.now class id }
    ensures small { IsTrue result → id < word_end }
{
    id < raw.methods() as u64 && raw.method_entry(id as u32).class == class
}

/// The method of a row.
fn method_of(raw: &Raw<'_>, row: &ReadRow) -> Member
    requires { row.now.id < count_at raw.now method_ids }
    ensures value { result ≡ member_entry raw.now method_ids row.now.id }
    ensures kind { result.kind < count_at raw.now proto_ids }
    ensures name { result.name < count_at raw.now string_ids }
{
    prove!(row.id < raw.methods() as u64);
    raw.method_entry(row.id as u32)
}

/// Whether a method is named `<init>`.
fn is_constructor(raw: &Raw<'_>, row: &ReadRow) -> bool
    requires { row.now.id < count_at raw.now method_ids }
    ensures { result ≡ is_constructor (listed_method raw.now row.now) }
{
    raw.is_constructor_name(method_of(raw, row).name)
}

/// Whether a method is named `<clinit>`.
fn is_initialiser(raw: &Raw<'_>, row: &ReadRow) -> bool
    requires { row.now.id < count_at raw.now method_ids }
    ensures { result ≡ is_initialiser (listed_method raw.now row.now) }
{
    raw.is_initialiser_name(method_of(raw, row).name)
}

/// Whether a method returns nothing.
fn returns_nothing(raw: &Raw<'_>, row: &ReadRow) -> bool
    requires { row.now.id < count_at raw.now method_ids }
    ensures { result ≡ is_void (listed_method raw.now row.now).ret }
{
    raw.begins_with(b'V', raw.proto_entry(method_of(raw, row).kind).ret)
}

/// Whether there is no type in the list at an offset, as none is at 0.
#[tactic(auto, using(crate::proofs::Types::list_in_file, crate::proofs::Types::no_types))]
fn has_no_types(file: &[u8], at: usize) -> bool
    requires fits { list_fits file.now at ≡ true }
    requires small { at < word_end }
    ensures { result ≡ (length (list_at file.now at) == 0) }
{
    at == 0 || word(file, at) == 0
}

/// The offset of the types of a method's parameters.
fn params_at(raw: &Raw<'_>, row: &ReadRow) -> u32
    requires { row.now.id < count_at raw.now method_ids }
    ensures value { result ≡ (proto_entry raw.now (method_proto raw.now row.now.id)).params }
    ensures there { method_proto raw.now row.now.id < count_at raw.now proto_ids }
{
    raw.proto_entry(method_of(raw, row).kind).params
}

/// Whether a method takes nothing.
fn takes_nothing(raw: &Raw<'_>, row: &ReadRow) -> bool
    requires { row.now.id < count_at raw.now method_ids }
    ensures { result ≡ has_no_params (listed_method raw.now row.now) }
{
    has_no_types(raw.file(), params_at(raw, row) as usize)
}

/// Whether a method is static, private or a constructor.
fn is_direct(raw: &Raw<'_>, row: &ReadRow) -> bool
    requires { row.now.id < count_at raw.now method_ids }
    ensures { result ≡ is_direct (listed_method raw.now row.now) }
{
    let flags = AccessFlags(row.flags);
    flags.is_static() || flags.is_private() || is_constructor(raw, row)
}

/// Whether a method has code exactly where it is neither native nor abstract.
fn agrees_on_code(raw: &Raw<'_>, row: &ReadRow) -> bool
    ensures { result ≡ code_agrees (listed_method raw.now row.now) }
{
    let flags = AccessFlags(row.flags);
    let is_elsewhere = flags.is_native() || flags.is_abstract();
    if row.code == 0 {
        is_elsewhere
    } else {
        !is_elsewhere
    }
}

/// Whether a method is static, takes nothing and returns nothing, if it is an initialiser.
fn fits_initialiser(raw: &Raw<'_>, row: &ReadRow) -> bool
    requires { row.now.id < count_at raw.now method_ids }
    ensures { result ≡ initialiser_fits (listed_method raw.now row.now) }
{
    !is_initialiser(raw, row)
        || AccessFlags(row.flags).is_static()
            && takes_nothing(raw, row)
            && returns_nothing(raw, row)
}

/// Whether a method is flagged and returns nothing, if it is a constructor.
fn fits_constructor(raw: &Raw<'_>, row: &ReadRow) -> bool
    requires { row.now.id < count_at raw.now method_ids }
    ensures { result ≡ constructor_fits (listed_method raw.now row.now) }
{
    !is_constructor(raw, row)
        || AccessFlags(row.flags).is_constructor() && returns_nothing(raw, row)
}

/// Whether a method is abstract or the initialiser, if its class is an interface.
fn fits_interface(raw: &Raw<'_>, owner: &Owner, row: &ReadRow) -> bool
    requires { row.now.id < count_at raw.now method_ids }
    ensures { result ≡ interface_fits owner.now.interface (listed_method raw.now row.now) }
{
    !owner.interface || AccessFlags(row.flags).is_abstract() || is_initialiser(raw, row)
}

/// Whether a method fits its name, its code and its class.
#[tactic(auto, unfolding(pi_format::specs::Rules::ClassData::method_fits))]
fn fits(raw: &Raw<'_>, owner: &Owner, row: &ReadRow) -> bool
    requires { row.now.id < count_at raw.now method_ids }
    ensures { result ≡ method_fits owner.now.interface (listed_method raw.now row.now) }
{
    agrees_on_code(raw, row)
        && fits_initialiser(raw, row)
        && fits_constructor(raw, row)
        && fits_interface(raw, owner, row)
}

/// Whether a row of direct methods holds.
fn is_direct_row(raw: &Raw<'_>, owner: &Owner, row: &ReadRow) -> bool
    ensures value { result ≡ row_holds raw.now owner.now DirectMethods row.now }
    ensures small { IsTrue result → row.now.id < word_end }
{
    is_method(raw, owner.class, row.id)
        && is_direct(raw, row)
        && !AccessFlags(row.flags).is_abstract()
        && fits(raw, owner, row)
}

/// Whether a row of virtual methods holds.
fn is_virtual_row(raw: &Raw<'_>, owner: &Owner, row: &ReadRow) -> bool
    ensures value { result ≡ row_holds raw.now owner.now VirtualMethods row.now }
    ensures small { IsTrue result → row.now.id < word_end }
{
    is_method(raw, owner.class, row.id) && !is_direct(raw, row) && fits(raw, owner, row)
}

/// Whether a row is one of its list: a member of the class, of the kind that the list has.
pub(crate) fn holds(raw: &Raw<'_>, owner: &Owner, list: MemberList, row: &ReadRow) -> bool
    ensures value { result ≡ row_holds raw.now owner.now list row.now }
    ensures small { IsTrue result → row.now.id < word_end }
{
    let is_static = AccessFlags(row.flags).is_static();
    match list {
        MemberList::StaticFields => is_field(raw, owner.class, row.id) && is_static,
        MemberList::InstanceFields => {
            is_field(raw, owner.class, row.id) && !is_static && !owner.interface
        }
        MemberList::DirectMethods => is_direct_row(raw, owner, row),
        MemberList::VirtualMethods => is_virtual_row(raw, owner, row),
    }
}
