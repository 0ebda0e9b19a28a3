// What classes name, each thing once in the order of its first use, by places in the lists below.

use pi_model::listed::{Listed, Texts};

/// A prototype: the text of its short form, the type of its result, the types of its parameters.
#[derive(Debug, Drop)]
pub struct ProtoParts {
    pub short: u32,
    pub ret: u32,
    pub params: Listed<u32>,
}

/// A field or a method: its class, the text of its name, and its type or its prototype.
#[derive(Clone, Copy, Debug, PartialEq, Eq, Hash)]
pub struct MemberParts {
    pub class: u32,
    pub name: u32,
    pub kind: u32,
}

/// All that classes name. A type is the place of its descriptor among the texts.
#[derive(Debug, Drop)]
pub struct Gathered {
    pub texts: Texts,
    pub types: Listed<u32>,
    pub protos: Listed<ProtoParts>,
    pub fields: Listed<MemberParts>,
    pub methods: Listed<MemberParts>,
}

/// How much of each kind there is.
#[derive(Clone, Copy, Debug)]
pub struct Counts {
    pub texts: usize,
    pub types: usize,
    pub protos: usize,
    pub fields: usize,
    pub methods: usize,
}

/// Where a thing that is named stands among those of its kind.
#[derive(Clone, Copy, Debug)]
pub enum Place {
    Nothing,
    OfText(u32),
    OfType(u32),
    OfField(u32),
    OfMethod(u32),
}

/// The number in a file of each thing that is gathered, by its place.
#[derive(Debug, Drop)]
pub struct Ranks {
    pub texts: Listed<u32>,
    pub types: Listed<u32>,
    pub fields: Listed<u32>,
    pub methods: Listed<u32>,
}
