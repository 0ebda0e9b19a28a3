// The four lists of members in the class data of a class.

/// A list of members of a class. Fields are static or not; methods are direct, which are the static and private ones and
/// the constructors, or virtual.
#[derive(Clone, Copy, Debug, PartialEq, Eq)]
pub enum MemberList {
    StaticFields,
    InstanceFields,
    DirectMethods,
    VirtualMethods,
}
