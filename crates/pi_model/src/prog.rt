// The program of a chain of files: its names, types, classes and members by number, and what each file brought.

ghost use Rattle.std.specs.Prelude.{◌+◌, vec_len, vec_capacity, if◌then◌else◌, ◌≡◌, ◌++◌, ◌∷◌, [], ◌≢◌, ℕ, ◌<◌, ◌≤◌, ◌^◌, length, sum_by, position, slice_get, slice_index_or, filter, option_map, is_none, is_ok, None, Some, IfOk, IfSome, IfNone, IsSomeAnd, IsTrue, OnOk, OnErr};
ghost use Rattle.std.specs.List.{All, list_all};
ghost use Rattle.pi_model.specs.Program.{no_files, with_file, field_count, method_count, field_number, method_number, all_fields, all_methods};
ghost use Rattle.pi_model.specs.Texts.{same_text, name_of};
ghost use Rattle.pi_model.specs.Index.{IsKept};
ghost use Rattle.pi_model.specs.Uses.{class_below, names_below};
ghost use Rattle.pi_model.specs.Valid.{FitsBehind, IsProgram};
ghost use Rattle.pi_model.specs.Search.{class_of, type_of, class_at, in_class, method_of, field_of};

use crate::describe::{ClassDesc, Classes};
use crate::index::Index;
use crate::listed::{Names, Texts, Units};
use crate::numbers::{ClassNo, FieldNo, FileNo, MethodNo, NameNo, TypeNo};
use crate::order::find_among;
use std::alloc::{AllocError, Global};
use std::marker::Model;

#[derive(Drop)]
struct Part {
    names_to: u32,
    types: Names,
}

impl Model for Part {
    ghost use Rattle.pi_model.specs.Program.{FilePart};

    ghost Value = { FilePart };

    ghost view = { λ part. record { names_to = part.names_to; types = part.types } };
}

/// The program of up to eight files. Each call by a number takes a number below the count of its kind.
#[derive(Drop)]
pub struct Prog {
    names: Vec<Units>,
    types: Vec<NameNo>,
    classes: Vec<ClassDesc>,
    files: Vec<Part>,
    index: Index,
}

impl Model for Prog {
    ghost use Rattle.pi_model.specs.Program.{Program};
    ghost use Rattle.pi_model.specs.Index.{IsKept};

    ghost Value = { Program };

    ghost view = { λ p. record { names = p.names.items; types = p.types.items; classes = p.classes.items; files = p.files.items } };

    ghost invariant = { λ p. IsKept record { names = p.names.items; types = p.types.items; classes = p.classes.items; files = p.files.items } p.index };
}

impl Prog {
    /// The program of no file, which takes no memory.
    pub fn new(alloc: Global) -> Prog
        ensures { result ≡ no_files }
    {
        Prog {
            names: Vec::new(alloc),
            types: Vec::new(alloc),
            classes: Vec::new(alloc),
            files: Vec::new(alloc),
            index: Index::new(alloc),
        }
    }

    /// What every program keeps: no more of each kind than 32 bits count, distinct names, distinct types, and in each
    /// class, type and file only numbers of names and files that there are.
    pub fn keeps(&self)
        ensures { IsProgram self.now }
    {
        let _ = &self.names;
    }

    /// The number of names.
    pub fn names(&self) -> u32
        ensures { result ≡ length self.now.names }
    {
        self.names.len() as u32
    }

    /// The units of a name.
    pub fn name(&self, n: NameNo) -> &Units
        requires { n.0 < length self.now.names }
        ensures { slice_get self.now.names n.0 ≡ Some result.now }
    {
        &self.names[n.0 as usize]
    }

    /// The first name with those units.
    pub fn find_name(&self, units: &[u16]) -> Option<NameNo>
        ensures first { option_map (λ n. n.0) result ≡ name_of self.now units.now }
        ensures some { IfSome result (λ n. slice_get self.now.names n.0 ≡ Some units.now) }
        ensures none { IfNone result ((k : ℕ) → slice_get self.now.names k ≢ Some units.now) }
        ensures below { IfSome result (λ n. n.0 < length self.now.names) }
    {
        match find_among(self.names.as_slice(), self.index.orders(), units) {
            Some(at) => Some(NameNo(at)),
            None => None,
        }
    }

    /// The number of types.
    pub fn all_types(&self) -> u32
        ensures { result ≡ length self.now.types }
    {
        self.types.len() as u32
    }

    /// The number of fields of all classes.
    pub fn all_fields(&self) -> u32
        ensures { result ≡ all_fields self.now }
    {
        self.index.fields()
    }

    /// The number of methods of all classes.
    pub fn all_methods(&self) -> u32
        ensures { result ≡ all_methods self.now }
    {
        self.index.methods()
    }

    /// The number of classes.
    pub fn classes(&self) -> u32
        ensures { result ≡ length self.now.classes }
    {
        self.classes.len() as u32
    }

    /// The description of a class.
    pub fn class(&self, c: ClassNo) -> &ClassDesc
        requires { c.0 < length self.now.classes }
        ensures value { slice_get self.now.classes c.0 ≡ Some result.now }
        ensures named { IsTrue (class_below (length self.now.names) result.now) }
        ensures filed { result.now.file.0 < length self.now.files }
    {
        &self.classes[c.0 as usize]
    }

    /// The first class of that descriptor.
    pub fn find_class(&self, n: NameNo) -> Option<ClassNo>
        ensures first { option_map (λ c. c.0) result ≡ class_of self.now n }
        ensures some { IfSome result (λ c. IsSomeAnd (class_at self.now c.0) (λ d. d.name ≡ n)) }
        ensures none { IfNone result (All (λ d. d.name ≢ n) self.now.classes) }
        ensures below { IfSome result (λ c. c.0 < length self.now.classes) }
    {
        match self.index.class_place(n) {
            Some(at) => Some(ClassNo(at)),
            None => None,
        }
    }

    /// The number of files.
    pub fn files(&self) -> u8
        ensures value { result ≡ length self.now.files }
        ensures bound { result ≤ 8 }
    {
        self.files.len() as u8
    }

    /// How many names the files up to and including that one brought.
    pub fn names_to(&self, f: FileNo) -> u32
        requires { f.0 < length self.now.files }
        ensures { option_map (λ part. part.names_to) (slice_get self.now.files f.0) ≡ Some result }
    {
        let part = &self.files[f.0 as usize];
        part.names_to
    }

    /// The types that a file names, in its order.
    pub fn types(&self, f: FileNo) -> &Names
        requires { f.0 < length self.now.files }
        ensures { option_map (λ part. part.types) (slice_get self.now.files f.0) ≡ Some result.now }
    {
        let part = &self.files[f.0 as usize];
        &part.types
    }

    /// The name of a type's descriptor.
    pub fn type_name(&self, t: TypeNo) -> NameNo
        requires { t.0 < length self.now.types }
        ensures { slice_get self.now.types t.0 ≡ Some result }
    {
        self.types[t.0 as usize]
    }

    /// The first type of that descriptor.
    pub fn find_type(&self, n: NameNo) -> Option<TypeNo>
        ensures first { option_map (λ t. t.0) result ≡ type_of self.now n }
        ensures some { IfSome result (λ t. slice_get self.now.types t.0 ≡ Some n) }
        ensures none { IfNone result (All (λ t. t ≢ n) self.now.types) }
        ensures below { IfSome result (λ t. t.0 < length self.now.types) }
    {
        match self.index.type_place(n) {
            Some(at) => Some(TypeNo(at)),
            None => None,
        }
    }

    /// The declaring class of a method, and its place in the class's list.
    pub fn method(&self, m: MethodNo) -> (ClassNo, u32)
        requires { m.0 < all_methods self.now }
        ensures member { method_of self.now m.0 ≡ Some (in_class result.0.0 result.1) }
        ensures class { result.0.0 < length self.now.classes }
        ensures place { IsSomeAnd (class_at self.now result.0.0) (λ d. result.1 < method_count d) }
        ensures number { method_number self.now result.0.0 result.1 ≡ m.0 }
    {
        self.index.method_place(m.0)
    }

    /// The declaring class of a field, and its place in the class's list.
    pub fn field(&self, f: FieldNo) -> (ClassNo, u32)
        requires { f.0 < all_fields self.now }
        ensures member { field_of self.now f.0 ≡ Some (in_class result.0.0 result.1) }
        ensures class { result.0.0 < length self.now.classes }
        ensures place { IsSomeAnd (class_at self.now result.0.0) (λ d. result.1 < field_count d) }
        ensures number { field_number self.now result.0.0 result.1 ≡ f.0 }
    {
        self.index.field_place(f.0)
    }

    /// The number of the method at a place of a class's list.
    pub fn method_no(&self, c: ClassNo, i: u32) -> MethodNo
        requires { IsSomeAnd (class_at self.now c.0) (λ d. i < method_count d) }
        ensures number { result.0 ≡ method_number self.now c.0 i }
        ensures member { method_of self.now result.0 ≡ Some (in_class c.0 i) }
        ensures below { result.0 < all_methods self.now }
    {
        MethodNo(self.index.method_start(c) + i)
    }

    /// The number of the field at a place of a class's list.
    pub fn field_no(&self, c: ClassNo, i: u32) -> FieldNo
        requires { IsSomeAnd (class_at self.now c.0) (λ d. i < field_count d) }
        ensures number { result.0 ≡ field_number self.now c.0 i }
        ensures member { field_of self.now result.0 ≡ Some (in_class c.0 i) }
        ensures below { result.0 < all_fields self.now }
    {
        FieldNo(self.index.field_start(c) + i)
    }

    /// Adds the names, the types that are not there yet and the classes of one more file, which has to fit behind
    /// the program: there is room, its names are new, and each number that it uses is one of the names.
    pub fn add_file(
        &mut self,
        names: Texts,
        types: Names,
        classes: Classes,
    ) -> Result<(), AllocError>
        requires { FitsBehind self.old names types classes }
        ensures ok { OnOk result (self.new ≡ with_file self.old names types classes) }
        ensures err { OnErr result (self.new ≡ self.old) }
    {
        let alloc = *self.files.allocator();
        let mut fresh = fresh_types(alloc, &self.index, types.as_slice())?;
        let mut names = names.into_vec();
        let mut classes = classes.into_vec();
        let names_to = (self.names.len() + names.len()) as u32;
        add_all(
            &mut self.names,
            &mut names,
            &mut self.types,
            &mut fresh,
            &mut self.classes,
            &mut classes,
            &mut self.files,
            Part { names_to, types },
            &mut self.index,
        )?;
        Ok(())
    }
}

/// Adds to all four lists and to the index, or to none of them.
fn add_all(
    names: &mut Vec<Units>,
    more_names: &mut Vec<Units>,
    types: &mut Vec<NameNo>,
    more_types: &mut Vec<NameNo>,
    classes: &mut Vec<ClassDesc>,
    more_classes: &mut Vec<ClassDesc>,
    files: &mut Vec<Part>,
    part: Part,
    index: &mut Index,
) -> Result<(), AllocError>
    requires kept { IsKept record { names = names.old.items; types = types.old.items; classes = classes.old.items; files = files.old.items } index.old }
    requires fits { IsProgram record { names = names.old.items ++ more_names.old.items; types = types.old.items ++ more_types.old.items; classes = classes.old.items ++ more_classes.old.items; files = files.old.items ++ part ∷ [] } }
    ensures names { names.new.items ≡ (if is_ok result then names.old.items ++ more_names.old.items else names.old.items) }
    ensures types { types.new.items ≡ (if is_ok result then types.old.items ++ more_types.old.items else types.old.items) }
    ensures classes { classes.new.items ≡ (if is_ok result then classes.old.items ++ more_classes.old.items else classes.old.items) }
    ensures files { files.new.items ≡ (if is_ok result then files.old.items ++ part ∷ [] else files.old.items) }
    ensures kept { IsKept record { names = names.new.items; types = types.new.items; classes = classes.new.items; files = files.new.items } index.new }
{
    let (old_names, old_types) = (names.len(), types.len());
    let (old_classes, old_files) = (classes.len(), files.len());
    make_room(
        names,
        more_names.len(),
        types,
        more_types.len(),
        classes,
        more_classes.len(),
        files,
    )?;
    move_behind(names, more_names);
    move_behind(types, more_types);
    move_behind(classes, more_classes);
    files.push_reserved(part);
    let added = index.extend(
        names.as_slice(),
        types.as_slice(),
        old_types,
        classes.as_slice(),
        old_classes,
    );
    if added.is_err() {
        names.truncate(old_names);
        types.truncate(old_types);
        classes.truncate(old_classes);
        files.truncate(old_files);
    }
    added
}

/// Makes room in all four lists for so many more elements. After a refusal some may have it; all stand as they did.
fn make_room(
    names: &mut Vec<Units>,
    more_names: usize,
    types: &mut Vec<NameNo>,
    more_types: usize,
    classes: &mut Vec<ClassDesc>,
    more_classes: usize,
    files: &mut Vec<Part>,
) -> Result<(), AllocError>
    ensures names { names.new.items ≡ names.old.items }
    ensures types { types.new.items ≡ types.old.items }
    ensures classes { classes.new.items ≡ classes.old.items }
    ensures files { files.new.items ≡ files.old.items }
    ensures name_room { OnOk result (vec_len names.new + more_names ≤ vec_capacity names.new) }
    ensures type_room { OnOk result (vec_len types.new + more_types ≤ vec_capacity types.new) }
    ensures class_room { OnOk result (vec_len classes.new + more_classes ≤ vec_capacity classes.new) }
    ensures file_room { OnOk result (vec_len files.new < vec_capacity files.new) }
{
    names.reserve(more_names)?;
    types.reserve(more_types)?;
    classes.reserve(more_classes)?;
    files.reserve(1)
}

/// Moves the elements of a list behind those of another, which has room for them.
fn move_behind<T>(items: &mut Vec<T>, more: &mut Vec<T>)
    requires { vec_len items.old + vec_len more.old ≤ vec_capacity items.old }
    ensures { items.new.items ≡ items.old.items ++ more.old.items }
{
    match items.append(more) {
        Ok(()) => {}
        Err(AllocError) => unreachable!(),
    }
}

fn fresh_types(alloc: Global, index: &Index, types: &[NameNo]) -> Result<Vec<NameNo>, AllocError>
    ensures { IfOk result (λ fresh. fresh.items ≡ filter (λ t. is_none (slice_index_or index.now.type_slots t.0 None)) types.now) }
{
    let mut fresh = Vec::new(alloc);
    for t in types {
        if index.type_place(*t).is_none() {
            fresh.push(*t)?;
        }
    }
    Ok(fresh)
}
