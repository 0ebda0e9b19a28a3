// The numbers by which names, types, classes, members, files and spaces are called, and addresses.

/// A name or other text of a chain, counted from 0 in the order in which the files bring new contents.
#[derive(Clone, Copy, Debug, PartialEq, Eq)]
pub struct NameNo(pub u32);

/// A type of a chain, counted from 0 in the order in which the files bring new descriptors.
#[derive(Clone, Copy, Debug, PartialEq, Eq)]
pub struct TypeNo(pub u32);

/// A class of a chain, counted from 0 in the order of its definition.
#[derive(Clone, Copy, Debug, PartialEq, Eq)]
pub struct ClassNo(pub u32);

/// A field of a chain, counted from 0 over the classes in order, within a class in the order of its list.
#[derive(Clone, Copy, Debug, PartialEq, Eq)]
pub struct FieldNo(pub u32);

/// A method of a chain, counted from 0 over the classes in order, within a class in the order of its list.
#[derive(Clone, Copy, Debug, PartialEq, Eq)]
pub struct MethodNo(pub u32);

/// A file of a chain, from 0.
#[derive(Clone, Copy, Debug, PartialEq, Eq)]
pub struct FileNo(pub u8);

/// A space of memory, counted from 0 in the order of adding.
#[derive(Clone, Copy, Debug, PartialEq, Eq)]
pub struct SpaceNo(pub u8);

/// An address of the guest, in bytes.
#[derive(Clone, Copy, Debug, PartialEq, Eq)]
pub struct Addr(pub u32);
