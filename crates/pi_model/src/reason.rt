// How far the initialisation of a class has come, why an attempt to run it ahead of time ends, and what linking refuses.

use crate::numbers::{ClassNo, MethodNo, TypeNo};

/// How far a class is initialised.
#[derive(Clone, Copy, Debug, PartialEq, Eq)]
pub enum ClassState {
    Fresh,
    InProgress,
    Done,
    Erroneous,
}

/// Why an attempt to initialise a class ahead of time was given up.
#[derive(Clone, Copy, Debug, PartialEq, Eq)]
pub enum Reason {
    NeedsInit(ClassNo),
    EarlierImage(TypeNo),
    OtherStatics(ClassNo),
    NativeCall(MethodNo),
    Steps,
    Heap,
    Frames,
    Uncaught(TypeNo),
}

/// What linking finds wrong, in the order of its passes.
#[derive(Clone, Copy, Debug, PartialEq, Eq)]
pub enum LinkKind {
    Duplicate,
    Unresolved,
    BadSuper,
    CoreShape,
    FinalOverride,
    Tables,
    BadKind,
    NoNative,
}
