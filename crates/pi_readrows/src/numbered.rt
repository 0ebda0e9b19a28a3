// Look-ups in a program by numbers, as rows of lookups.rt ask for them. A number that there is not is answered by none.
use pi_model::describe::ClassDesc;
use pi_model::insn::FieldRef;
use pi_model::numbers::{ClassNo, FieldNo, FileNo, MethodNo, NameNo, TypeNo};
use pi_model::prog::Prog;
use pi_rows::fault::Fault;
use pi_rows::told::Told;
use pi_rows::words::numbers_of;
use std::alloc::Global;
use std::fmt::Display;

/// Follows a row with numbers.
pub(crate) fn add_numbered(
    told: &mut Told,
    alloc: Global,
    prog: &Prog,
    verb: &str,
    rest: &str,
) -> Result<(), Fault> {
    let numbers = numbers_of::<u32>(alloc, rest)?;
    match numbers.as_slice() {
        [number] => add_by_one(told, prog, verb, *number),
        [class, place] => add_by_two(told, prog, verb, ClassNo(*class), *place),
        [class, name, ty] if verb == "own-field" => {
            let field = FieldRef {
                class: NameNo(0),
                name: NameNo(*name),
                ty: NameNo(*ty),
            };
            add_own_field(told, prog, ClassNo(*class), &field)
        }
        _ => Err(Fault::NoRow),
    }
}

fn add_by_one(told: &mut Told, prog: &Prog, verb: &str, number: u32) -> Result<(), Fault> {
    match verb {
        "name" if number < prog.names() => told.units(prog.name(NameNo(number)).as_slice()),
        "type" if number < prog.all_types() => told.value(&prog.type_name(TypeNo(number)).0),
        "class" if number < prog.classes() => add_class(told, prog.class(ClassNo(number))),
        "method" if number < prog.all_methods() => add_member(told, prog.method(MethodNo(number))),
        "field" if number < prog.all_fields() => add_member(told, prog.field(FieldNo(number))),
        "find-type" => add_found(told, prog.find_type(NameNo(number)).map(|ty| ty.0)),
        "find-class" => add_found(told, prog.find_class(NameNo(number)).map(|class| class.0)),
        "names-to" | "types" => add_of_file(told, prog, verb, number),
        "name" | "type" | "class" | "method" | "field" => told.words("none"),
        _ => Err(Fault::NoRow),
    }
}

/// The number of a member by its place.
fn add_by_two(
    told: &mut Told,
    prog: &Prog,
    verb: &str,
    class: ClassNo,
    place: u32,
) -> Result<(), Fault> {
    if class.0 >= prog.classes() {
        return told.words("none");
    }
    let (at, desc) = (place as usize, prog.class(class));
    match verb {
        "method-no" if at < desc.methods.len() => told.value(&prog.method_no(class, place).0),
        "field-no" if at < desc.fields.len() => told.value(&prog.field_no(class, place).0),
        "method-no" | "field-no" => told.words("none"),
        _ => Err(Fault::NoRow),
    }
}

fn add_found<T: Display + Drop>(told: &mut Told, number: Option<T>) -> Result<(), Fault> {
    match number {
        Some(number) => told.value(&number),
        None => told.words("none"),
    }
}

fn add_class(told: &mut Told, class: &ClassDesc) -> Result<(), Fault> {
    told.words("file ")?;
    told.value(&class.file.0)?;
    told.words(", name ")?;
    told.value(&class.name.0)?;
    told.words(", ")?;
    told.value(&class.fields.len())?;
    told.words(" fields, ")?;
    told.value(&class.methods.len())?;
    told.words(" methods, below ")?;
    add_found(told, class.parent.map(|parent| parent.0))
}

fn add_member(told: &mut Told, member: (ClassNo, u32)) -> Result<(), Fault> {
    let (class, place) = member;
    told.words("class ")?;
    told.value(&class.0)?;
    told.words(", place ")?;
    told.value(&place)
}

/// The place of a field in a class's own list.
fn add_own_field(
    told: &mut Told,
    prog: &Prog,
    class: ClassNo,
    field: &FieldRef,
) -> Result<(), Fault> {
    if class.0 >= prog.classes() {
        return told.words("none");
    }
    add_found(told, prog.class(class).own_field(field))
}

/// The number of names up to a file, or its types.
fn add_of_file(told: &mut Told, prog: &Prog, verb: &str, file: u32) -> Result<(), Fault> {
    match u8::try_from(file) {
        Ok(file) if file < prog.files() && verb == "types" => {
            told.debug(&prog.types(FileNo(file)).as_slice())
        }
        Ok(file) if file < prog.files() => told.value(&prog.names_to(FileNo(file))),
        _ => told.words("none"),
    }
}
