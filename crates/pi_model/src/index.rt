// The look-ups that a program keeps beside its lists: for each name the first type and the first class that have it,
// and for each file the order of its names.

ghost use Rattle.std.specs.Prelude.{if◌then◌else◌, ◌≡◌, ◌++◌, ◌+◌, ◌-◌, ◌^◌, ◌<◌, ◌≤◌, [], None, is_ok, replicate, length, take, sum_by, slice_index_or, IfOk, IsTrue, OnOk, OnErr};
ghost use Rattle.std.specs.List.{list_all};
ghost use Rattle.pi_model.specs.Order.{AreOrders};
ghost use Rattle.pi_model.specs.Uses.{names_below, class_below};
ghost use Rattle.pi_model.specs.Program.{method_count, field_count};
ghost use Rattle.pi_model.specs.Index.{IsIndexed, IsFirsts, first_set, starts_from, type_name, class_name};

use crate::describe::ClassDesc;
use crate::listed::{Listed, Units};
use crate::numbers::{ClassNo, NameNo};
use crate::order::order_of;
use std::alloc::{AllocError, Global};
use std::marker::Model;

/// A slot for each name, with the place of the first type of that name, and one with that of the first class; for
/// each class the numbers of its first method and its first field, and how many methods and fields there are.
#[derive(Drop)]
pub struct Index {
    type_slots: Vec<Option<u32>>,
    class_slots: Vec<Option<u32>>,
    method_starts: Vec<u32>,
    field_starts: Vec<u32>,
    methods: u32,
    fields: u32,
    orders: Vec<Listed<u32>>,
}

impl Model for Index {
    ghost use Rattle.pi_model.specs.Index.{Lookups};

    ghost Value = { Lookups };

    ghost view = { λ i. record { type_slots = i.type_slots.items; class_slots = i.class_slots.items; method_starts = i.method_starts.items; field_starts = i.field_starts.items; methods = i.methods; fields = i.fields; orders = i.orders.items } };
}

impl Index {
    /// The look-ups of no name, which take no memory.
    pub fn new(alloc: Global) -> Index
        ensures indexed { IsIndexed result 0 [] [] }
        ensures ordered { result.orders ≡ [] }
    {
        Index {
            type_slots: Vec::new(alloc),
            class_slots: Vec::new(alloc),
            method_starts: Vec::new(alloc),
            field_starts: Vec::new(alloc),
            methods: 0,
            fields: 0,
            orders: Vec::new(alloc),
        }
    }

    /// The place of the first type of that name.
    pub fn type_place(&self, n: NameNo) -> Option<u32>
        ensures { result ≡ slice_index_or self.now.type_slots n.0 None }
    {
        slot_of(self.type_slots.as_slice(), n)
    }

    /// The place of the first class of that name.
    pub fn class_place(&self, n: NameNo) -> Option<u32>
        ensures { result ≡ slice_index_or self.now.class_slots n.0 None }
    {
        slot_of(self.class_slots.as_slice(), n)
    }

    /// The number of methods of all classes.
    pub fn methods(&self) -> u32
        ensures { result ≡ self.now.methods }
    {
        self.methods
    }

    /// The number of fields of all classes.
    pub fn fields(&self) -> u32
        ensures { result ≡ self.now.fields }
    {
        self.fields
    }

    /// The number of a class's first method.
    pub fn method_start(&self, c: ClassNo) -> u32
        requires { c.0 < length self.now.method_starts }
        ensures { result ≡ slice_index_or self.now.method_starts c.0 0 }
    {
        self.method_starts[c.0 as usize]
    }

    /// The number of a class's first field.
    pub fn field_start(&self, c: ClassNo) -> u32
        requires { c.0 < length self.now.field_starts }
        ensures { result ≡ slice_index_or self.now.field_starts c.0 0 }
    {
        self.field_starts[c.0 as usize]
    }

    /// The class that a method's number stands in, and its place there.
    pub fn method_place(&self, number: u32) -> (ClassNo, u32)
        requires some { 0 < length self.now.method_starts }
        requires few { length self.now.method_starts < 2 ^ 32 }
        requires first { slice_index_or self.now.method_starts 0 0 ≡ 0 }
        ensures class { result.0.0 < length self.now.method_starts }
        ensures at { slice_index_or self.now.method_starts result.0.0 0 + result.1 ≡ number }
        ensures next { result.0.0 + 1 < length self.now.method_starts → number < slice_index_or self.now.method_starts (result.0.0 + 1) 0 }
    {
        place_among(self.method_starts.as_slice(), number)
    }

    /// The class that a field's number stands in, and its place there.
    pub fn field_place(&self, number: u32) -> (ClassNo, u32)
        requires some { 0 < length self.now.field_starts }
        requires few { length self.now.field_starts < 2 ^ 32 }
        requires first { slice_index_or self.now.field_starts 0 0 ≡ 0 }
        ensures class { result.0.0 < length self.now.field_starts }
        ensures at { slice_index_or self.now.field_starts result.0.0 0 + result.1 ≡ number }
        ensures next { result.0.0 + 1 < length self.now.field_starts → number < slice_index_or self.now.field_starts (result.0.0 + 1) 0 }
    {
        place_among(self.field_starts.as_slice(), number)
    }

    /// For each file the numbers of its names in the order of their contents.
    pub fn orders(&self) -> &[Listed<u32>]
        ensures { result.now ≡ self.now.orders }
    {
        self.orders.as_slice()
    }

    /// Takes up what one more file brought: the names, the types and the classes behind those that it has.
    pub fn extend(
        &mut self,
        names: &[Units],
        types: &[NameNo],
        old_types: usize,
        classes: &[ClassDesc],
        old_classes: usize,
    ) -> Result<(), AllocError>
        requires old { IsIndexed self.old (length self.old.type_slots) (take old_types types.now) (take old_classes classes.now) }
        requires ordered { AreOrders (take (length self.old.type_slots) names.now) 0 self.old.orders }
        requires more { length self.old.type_slots ≤ length names.now }
        requires old_types { old_types ≤ length types.now }
        requires old_classes { old_classes ≤ length classes.now }
        requires few_names { length names.now < 2 ^ 32 }
        requires few_types { length types.now < 2 ^ 32 }
        requires few_classes { length classes.now < 2 ^ 32 }
        requires few_methods { sum_by method_count classes.now < 2 ^ 32 }
        requires few_fields { sum_by field_count classes.now < 2 ^ 32 }
        requires types { IsTrue (names_below (length names.now) types.now) }
        requires classes { IsTrue (list_all (class_below (length names.now)) classes.now) }
        ensures indexed { OnOk result (IsIndexed self.new (length names.now) types.now classes.now) }
        ensures ordered { OnOk result (AreOrders names.now 0 self.new.orders) }
        ensures err { OnErr result (self.new ≡ self.old) }
    {
        let alloc = *self.orders.allocator();
        let old_files = self.orders.len();
        let order = order_of(alloc, names, self.type_slots.len())?;
        self.orders.push(Listed::from_vec(order))?;
        let marked = self.mark_all(names.len(), types, old_types, classes, old_classes);
        if marked.is_err() {
            self.orders.truncate(old_files);
        }
        marked
    }

    fn mark_all(
        &mut self,
        names: usize,
        types: &[NameNo],
        old_types: usize,
        classes: &[ClassDesc],
        old_classes: usize,
    ) -> Result<(), AllocError>
        requires old { IsIndexed self.old (length self.old.type_slots) (take old_types types.now) (take old_classes classes.now) }
        requires more { length self.old.type_slots ≤ names }
        requires old_types { old_types ≤ length types.now }
        requires old_classes { old_classes ≤ length classes.now }
        requires few_types { length types.now < 2 ^ 32 }
        requires few_classes { length classes.now < 2 ^ 32 }
        requires few_methods { sum_by method_count classes.now < 2 ^ 32 }
        requires few_fields { sum_by field_count classes.now < 2 ^ 32 }
        requires types { IsTrue (names_below names types.now) }
        requires classes { IsTrue (list_all (class_below names) classes.now) }
        ensures ok { OnOk result (IsIndexed self.new names types.now classes.now) }
        ensures orders_stand { self.new.orders ≡ self.old.orders }
        ensures err { OnErr result (self.new ≡ self.old) }
    {
        let alloc = *self.type_slots.allocator();
        let fresh = &classes[old_classes..];
        let (mut method_starts, methods) = method_starts_of(alloc, fresh, self.methods)?;
        let (mut field_starts, fields) = field_starts_of(alloc, fresh, self.fields)?;
        grow_all(
            &mut self.type_slots,
            &mut self.class_slots,
            names,
            &mut self.method_starts,
            &mut method_starts,
            &mut self.field_starts,
            &mut field_starts,
        )?;
        self.methods = methods;
        self.fields = fields;
        mark_types(self.type_slots.as_mut_slice(), types, old_types);
        mark_classes(self.class_slots.as_mut_slice(), classes, old_classes);
        Ok(())
    }
}

/// Makes the slots as many as there are names and adds the starts, or does nothing: there is room in each list before
/// the first grows.
fn grow_all(
    types: &mut Vec<Option<u32>>,
    classes: &mut Vec<Option<u32>>,
    names: usize,
    methods: &mut Vec<u32>,
    more_methods: &mut Vec<u32>,
    fields: &mut Vec<u32>,
    more_fields: &mut Vec<u32>,
) -> Result<(), AllocError>
    requires types { length types.old.items ≤ names }
    requires classes { length classes.old.items ≤ names }
    ensures types { types.new.items ≡ (if is_ok result then types.old.items ++ replicate (names - length types.old.items) None else types.old.items) }
    ensures classes { classes.new.items ≡ (if is_ok result then classes.old.items ++ replicate (names - length classes.old.items) None else classes.old.items) }
    ensures type_room { OnOk result (length types.new.items ≡ names) }
    ensures class_room { OnOk result (length classes.new.items ≡ names) }
    ensures methods { methods.new.items ≡ (if is_ok result then methods.old.items ++ more_methods.old.items else methods.old.items) }
    ensures fields { fields.new.items ≡ (if is_ok result then fields.old.items ++ more_fields.old.items else fields.old.items) }
{
    classes.reserve(names - classes.len())?;
    methods.reserve(more_methods.len())?;
    fields.reserve(more_fields.len())?;
    types.resize(names, None)?;
    classes.resize(names, None)?;
    methods.append(more_methods)?;
    fields.append(more_fields)
}

fn slot_of(slots: &[Option<u32>], n: NameNo) -> Option<u32>
    ensures { result ≡ slice_index_or slots.now n.0 None }
{
    if (n.0 as usize) < slots.len() {
        slots[n.0 as usize]
    } else {
        None
    }
}

fn mark(slots: &mut [Option<u32>], n: NameNo, place: u32)
    requires { n.0 < length slots.old }
    ensures { slots.new ≡ first_set slots.old n.0 place }
{
    if slots[n.0 as usize].is_none() {
        slots[n.0 as usize] = Some(place);
    }
}

fn mark_types(slots: &mut [Option<u32>], types: &[NameNo], from: usize)
    requires from { from ≤ length types.now }
    requires few { length types.now < 2 ^ 32 }
    requires named { IsTrue (names_below (length slots.old) types.now) }
    requires old { IsFirsts type_name slots.old (take from types.now) }
    ensures { IsFirsts type_name slots.new types.now }
{
    for place in from..types.len() {
        let t = types[place];
        mark(slots, t, place as u32);
    }
}

fn mark_classes(slots: &mut [Option<u32>], classes: &[ClassDesc], from: usize)
    requires from { from ≤ length classes.now }
    requires few { length classes.now < 2 ^ 32 }
    requires named { IsTrue (list_all (class_below (length slots.old)) classes.now) }
    requires old { IsFirsts class_name slots.old (take from classes.now) }
    ensures { IsFirsts class_name slots.new classes.now }
{
    for place in from..classes.len() {
        let class = &classes[place];
        mark(slots, class.name, place as u32);
    }
}

fn method_starts_of(
    alloc: Global,
    classes: &[ClassDesc],
    before: u32,
) -> Result<(Vec<u32>, u32), AllocError>
    requires { before + sum_by method_count classes.now < 2 ^ 32 }
    ensures starts { IfOk result (λ r. r.0.items ≡ starts_from method_count before classes.now) }
    ensures total { IfOk result (λ r. r.1 ≡ before + sum_by method_count classes.now) }
{
    let mut starts = Vec::new(alloc);
    let mut next = before;
    for class in classes {
        starts.push(next)?;
        next += class.methods.len() as u32;
    }
    Ok((starts, next))
}

fn field_starts_of(
    alloc: Global,
    classes: &[ClassDesc],
    before: u32,
) -> Result<(Vec<u32>, u32), AllocError>
    requires { before + sum_by field_count classes.now < 2 ^ 32 }
    ensures starts { IfOk result (λ r. r.0.items ≡ starts_from field_count before classes.now) }
    ensures total { IfOk result (λ r. r.1 ≡ before + sum_by field_count classes.now) }
{
    let mut starts = Vec::new(alloc);
    let mut next = before;
    for class in classes {
        starts.push(next)?;
        next += class.fields.len() as u32;
    }
    Ok((starts, next))
}

// Halves the classes that come into question: the number is at or behind the start of the first of them, and before
// the start of the class behind the last.
fn place_among(starts: &[u32], number: u32) -> (ClassNo, u32)
    requires some { 0 < length starts.now }
    requires few { length starts.now < 2 ^ 32 }
    requires first { slice_index_or starts.now 0 0 ≡ 0 }
    ensures class { result.0.0 < length starts.now }
    ensures at { slice_index_or starts.now result.0.0 0 + result.1 ≡ number }
    ensures next { result.0.0 + 1 < length starts.now → number < slice_index_or starts.now (result.0.0 + 1) 0 }
{
    let mut low = 0;
    let mut high = starts.len();
    while high - low > 1 {
        let middle = low + (high - low) / 2;
        if starts[middle] <= number {
            low = middle;
        } else {
            high = middle;
        }
    }
    (ClassNo(low as u32), number - starts[low])
}
