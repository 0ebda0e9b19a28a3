// The classes that a file says, with their members and static values.

ghost use Rattle.std.specs.Prelude.{◌≡◌, ◌≢◌, ◌++◌, ◌<◌, ◌^◌, length, map, drop, IfOk, OnOk};
ghost use Rattle.std.specs.List.{All};
ghost use Rattle.pi_format.specs.Tables.{count_at, type_ids, class_defs, field_ids};
ghost use Rattle.pi_format.specs.Rules.Lowest.{tabulation};
ghost use Rattle.pi_format.specs.Rules.ClassData.{rows_of, methods_in};
ghost use Rattle.pi_format.specs.Rules.Values.{class_values};
ghost use Rattle.pi_format.specs.Says.Codes.{code_of};
ghost use Rattle.pi_format.specs.Says.Names.{type_name};
ghost use Rattle.pi_format.specs.Says.Classes.{field_desc, static_fields, values_in, fields_said, method_desc, parent_name, class_desc, types_said, classes_said};
ghost use Rattle.pi_model.specs.declared.describe.Init.{Init as Initial};
ghost use Rattle.pi_bytes.specs.Numbers.{no_index};
ghost use Rattle.pi_dex.specs.Judged.{SaysCode, SaysMethod, IsField, IsInit};
ghost use Rattle.pi_dex.specs.Ready.{SaysClass, SaysClasses, init_at};

use crate::inits::init_of;
use crate::members::members;
use pi_bytes::numbers::NO_INDEX;
use pi_classdata::{ClassRows, EncodedValue, MemberRow, RowTable, Values, class_values};
use pi_dexcode::{Named, code};
use pi_model::describe::{ClassDesc, Classes, Code, FieldDesc, Fields, Init, MethodDesc, Methods};
use pi_model::listed::Names;
use pi_model::numbers::{FileNo, NameNo};
use std::alloc::{AllocError, Global};

/// The field of a row, with what it is set to.
fn field_desc(names: &Named<'_>, init: Init, row: &MemberRow) -> FieldDesc
    requires { IsField names.now.file row.now }
    ensures { result ≡ field_desc names.now init row.now }
{
    let field = names.raw().field_entry(row.id);
    FieldDesc {
        name: names.string_name(field.name),
        ty: names.type_name(field.kind),
        flags: row.flags,
        init,
    }
}

/// What the value of a number sets its field to, if there is one.
#[tactic(auto, using(crate::proofs::Listing::init_there, crate::proofs::Listing::init_none))]
fn init_at(names: &Named<'_>, values: &[EncodedValue], i: usize) -> Init
    requires { All (IsInit names.now.file) values.now }
    ensures { result ≡ init_at names.now values.now i }
{
    if i < values.len() {
        init_of(names, &values[i])
    } else {
        Init::Zero
    }
}

/// Adds the static fields of a class; the first ones have values.
#[tactic(auto, using(crate::proofs::Listing::statics_go, crate::proofs::Listing::statics_end))]
fn add_statics(
    names: &Named<'_>,
    fields: &mut Fields,
    rows: &[MemberRow],
    values: &[EncodedValue],
) -> Result<(), AllocError>
    requires rows { All (IsField names.now.file) rows.now }
    requires values { All (IsInit names.now.file) values.now }
    ensures { OnOk result (fields.new ≡ fields.old ++ static_fields names.now rows.now values.now) }
{
    for i in 0..rows.len() {
        fields.push(field_desc(names, init_at(names, values, i), &rows[i]))?;
    }
    Ok(())
}

/// Adds the instance fields of a class.
#[tactic(auto, using(pi_format::proofs::Loops::map_go, pi_format::proofs::Loops::map_end))]
fn add_instances(
    names: &Named<'_>,
    fields: &mut Fields,
    rows: &[MemberRow],
) -> Result<(), AllocError>
    requires { All (IsField names.now.file) rows.now }
    ensures { OnOk result (fields.new ≡ fields.old ++ map (field_desc names.now Initial.Zero) rows.now) }
{
    for i in 0..rows.len() {
        fields.push(field_desc(names, Init::Zero, &rows[i]))?;
    }
    Ok(())
}

/// The fields of a class, static ones first.
fn fields(
    alloc: Global,
    names: &Named<'_>,
    rows: &ClassRows,
    values: &[EncodedValue],
) -> Result<Fields, AllocError>
    requires statics { All (IsField names.now.file) rows.now.statics }
    requires instances { All (IsField names.now.file) rows.now.instances }
    requires values { All (IsInit names.now.file) values.now }
    ensures { IfOk result (λ fields. fields ≡ static_fields names.now rows.now.statics values.now ++ map (field_desc names.now Initial.Zero) rows.now.instances) }
{
    let mut fields = Fields::new(alloc);
    add_statics(names, &mut fields, rows.statics.as_slice(), values)?;
    add_instances(names, &mut fields, rows.instances.as_slice())?;
    Ok(fields)
}

/// The code of a row, none where it has none.
fn code_of(alloc: Global, names: &Named<'_>, at: u32) -> Result<Option<Code>, AllocError>
    requires { at ≢ 0 → SaysCode names.now.file at }
    ensures { IfOk result (λ code. code ≡ code_of names.now at) }
{
    if at == 0 {
        return Ok(None);
    }
    Ok(Some(code(alloc, names, at as usize)?))
}

/// The method of a row.
fn method_desc(alloc: Global, names: &Named<'_>, row: &MemberRow) -> Result<MethodDesc, AllocError>
    requires { SaysMethod names.now.file row.now }
    ensures { IfOk result (λ method. method ≡ method_desc names.now row.now) }
{
    let method = names.raw().method_entry(row.id);
    let (name, proto) = (method.name, method.kind);
    let params = names.param_names(alloc, proto)?;
    let code = code_of(alloc, names, row.code)?;
    Ok(MethodDesc {
        name: names.string_name(name),
        params,
        ret: names.ret_name(proto),
        flags: row.flags,
        code,
    })
}

/// Adds the methods of rows.
#[tactic(auto, using(pi_format::proofs::Loops::map_go, pi_format::proofs::Loops::map_end))]
fn add_methods(
    alloc: Global,
    names: &Named<'_>,
    methods: &mut Methods,
    rows: &[MemberRow],
) -> Result<(), AllocError>
    requires { All (SaysMethod names.now.file) rows.now }
    ensures { OnOk result (methods.new ≡ methods.old ++ map (method_desc names.now) rows.now) }
{
    for i in 0..rows.len() {
        let method = method_desc(alloc, names, &rows[i])?;
        methods.push(method)?;
    }
    Ok(())
}

/// The methods of a class, direct ones first.
fn methods(alloc: Global, names: &Named<'_>, rows: &ClassRows) -> Result<Methods, AllocError>
    requires directs { All (SaysMethod names.now.file) rows.now.directs }
    requires virtuals { All (SaysMethod names.now.file) rows.now.virtuals }
    ensures { IfOk result (λ methods. methods ≡ map (method_desc names.now) (methods_in rows.now)) }
{
    let mut methods = Methods::new(alloc);
    add_methods(alloc, names, &mut methods, rows.directs.as_slice())?;
    add_methods(alloc, names, &mut methods, rows.virtuals.as_slice())?;
    Ok(methods)
}

/// The superclass, none where the definition has no number of one.
fn parent_of(names: &Named<'_>, t: u32) -> Option<NameNo>
    requires { t ≢ no_index → t < count_at names.now.file type_ids }
    ensures { result ≡ parent_name names.now t }
{
    if t == NO_INDEX {
        None
    } else {
        Some(names.type_name(t))
    }
}

/// The values of a class, none where they do not hold.
fn values_of(values: &Option<Values>) -> &[EncodedValue]
    ensures { result.now ≡ values_in values.now }
{
    match values {
        None => &[],
        Some(values) => values.as_slice(),
    }
}

/// The class of a definition, in the file of that number of a chain.
#[tactic(auto, unfolding(pi_format::specs::Says::Classes::class_desc))]
fn class(
    alloc: Global,
    names: &Named<'_>,
    number: u8,
    rows: &ClassRows,
    i: u32,
) -> Result<ClassDesc, AllocError>
    requires there { i < count_at names.now.file class_defs }
    requires rows { rows.now ≡ rows_of names.now.file i }
    requires says { SaysClass names.now.file i }
    ensures { IfOk result (λ class. class ≡ class_desc names.now number i) }
{
    let raw = names.raw();
    let def = raw.class_entry(i);
    let faces = raw.faces(alloc, i)?;
    let values = class_values(alloc, raw, rows, i)?;
    let fields = fields(alloc, names, rows, values_of(&values))?;
    let methods = methods(alloc, names, rows)?;
    Ok(ClassDesc {
        file: FileNo(number),
        name: names.type_name(def.class),
        flags: def.flags,
        parent: parent_of(names, def.parent),
        faces: names.type_names(alloc, faces.as_slice())?,
        fields,
        methods,
    })
}

/// All classes, in the order of their definitions.
#[tactic(auto, using(pi_format::proofs::Loops::listed_goes, pi_format::proofs::Loops::listed_done))]
pub(crate) fn classes(
    alloc: Global,
    names: &Named<'_>,
    number: u8,
    table: &RowTable,
) -> Result<Classes, AllocError>
    requires table { table.now ≡ tabulation (rows_of names.now.file) 0 (count_at names.now.file class_defs) }
    requires says { SaysClasses names.now.file }
    ensures { IfOk result (λ classes. classes ≡ classes_said names.now number) }
{
    let mut classes = Classes::new(alloc);
    for i in 0..names.raw().class_defs() {
        let class = class(alloc, names, number, members(names.raw(), table, i), i)?;
        classes.push(class)?;
    }
    Ok(classes)
}

/// The descriptors of all types, in the order of their table.
#[tactic(auto, using(pi_format::proofs::Loops::listed_goes, pi_format::proofs::Loops::listed_done))]
pub(crate) fn types(alloc: Global, names: &Named<'_>) -> Result<Names, AllocError>
    ensures { IfOk result (λ types. types ≡ types_said names.now) }
{
    let mut types = Names::new(alloc);
    for t in 0..names.raw().types() {
        types.push(names.type_name(t))?;
    }
    Ok(types)
}
