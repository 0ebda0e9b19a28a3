// Where an instruction stands.

/// Where an instruction stands, how long it is, and what stands in for its names and its payload.
#[derive(Clone, Copy, Debug)]
pub struct Place {
    /// How many units the instruction has.
    pub units: u32,
    /// The index in the file's tables of what the instruction names; of no meaning where it names nothing.
    pub index: u32,
    /// The address of the instruction.
    pub at: u32,
    /// The address of its payload; of no meaning where it has none.
    pub payload: u32,
    /// Whether the payload of a switch is sparse.
    pub sparse: bool,
}
