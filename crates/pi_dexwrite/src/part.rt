// A class that was added to a builder.

use pi_dexpools::gathered::Place;
use pi_model::describe::ClassDesc;
use pi_model::listed::Listed;
use pi_model::prog::Prog;

/// A class that was added: its program, its description there, the addresses of its sparse switches method by method, and the
/// places of what it names, in the order in which it names it.
#[derive(Drop)]
pub(crate) struct Part<'p> {
    pub prog: &'p Prog,
    pub class: &'p ClassDesc,
    pub sparse: Listed<Listed<u32>>,
    pub places: Listed<Place>,
}
