// What the format of a file asks of its bytes, and what program the bytes say: definitions that contracts cite. They
// stand in specs/, and docs/dex-format.md states them in words. The function here states a law of them.
#![tactic(auto)]

pub mod lists;

ghost use Rattle.pi_model.specs.Program.{no_files};
ghost use Rattle.pi_model.specs.Valid.{FitsBehind};
ghost use Rattle.pi_format.specs.Core.{core_classes, core_names, core_types};

/// The law that the first file of a chain, which is no file of bytes yet, fits behind no file.
pub fn core_fits()
    ensures { FitsBehind no_files core_names core_types core_classes }
{}
