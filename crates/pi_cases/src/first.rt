// The first file of each chain, which is made by hand.
use pi_model::numbers::NameNo;
use pi_rows::fault::Fault;
use pi_rows::told::Told;
use pi_small::{core, is_small_program};
use std::alloc::Global;

/// Adds its counts and names, and whether its program alone is small for a main class.
pub(crate) fn add_first_file(told: &mut Told, alloc: Global, main: &str) -> Result<(), Fault> {
    let prog = core(alloc)?;
    told.value(&prog.names())?;
    told.words(" names, ")?;
    told.value(&prog.classes())?;
    told.words(" classes, ")?;
    told.value(&prog.files())?;
    told.words(" file")?;
    for name in 0..prog.names() {
        told.line_of("name", &name)?;
        told.words(" ")?;
        told.units(prog.name(NameNo(name)).as_slice())?;
    }
    told.line()?;
    if !is_small_program(&prog, main.as_bytes()) {
        told.words("not ")?;
    }
    told.words("small for ")?;
    told.words(main)
}
