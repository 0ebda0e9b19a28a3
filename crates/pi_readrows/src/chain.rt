// The program that files make behind each other.
ghost use Rattle.std.specs.Prelude.{OnOk};
ghost use Rattle.pi_format.specs.Says.{HasRoom};

use pi_bytes::numbers::MOST_BYTES;
use pi_dex::{DexFault, append};
use pi_model::prog::Prog;
use pi_rows::fault::Fault;
use pi_rows::files::Named;
use pi_rows::told::Told;
use std::alloc::Global;

/// The most files of a chain.
const MOST_FILES: u8 = 8;

/// The program of no file.
pub(crate) fn no_files(alloc: Global) -> Prog
    ensures { HasRoom result }
{
    Prog::new(alloc)
}

/// Adds a file behind a program. A ninth, and one that is longer than is read, are left out.
pub(crate) fn add(alloc: Global, prog: &mut Prog, file: &Named) -> Result<(), DexFault>
    requires { HasRoom prog.old }
    ensures { OnOk result (HasRoom prog.new) }
{
    if file.bytes.len() > MOST_BYTES || prog.files() >= MOST_FILES {
        return Ok(());
    }
    append(alloc, prog, file.bytes.as_slice())
}

/// Adds files behind a program, up to the first that is refused.
pub(crate) fn add_all(alloc: Global, prog: &mut Prog, files: &[Named]) -> Result<(), DexFault>
    requires { HasRoom prog.old }
{
    for file in files {
        add(alloc, prog, file)?;
    }
    Ok(())
}

/// The program of files.
pub(crate) fn program(alloc: Global, files: &[Named]) -> Result<Prog, DexFault> {
    let mut prog = no_files(alloc);
    add_all(alloc, &mut prog, files)?;
    Ok(prog)
}

/// Adds how many of each kind a program has.
pub(crate) fn add_sizes(told: &mut Told, prog: &Prog) -> Result<(), Fault> {
    told.counts(&[
        ("files", u32::from(prog.files())),
        ("names", prog.names()),
        ("types", prog.all_types()),
        ("classes", prog.classes()),
        ("fields", prog.all_fields()),
        ("methods", prog.all_methods()),
    ])
}
