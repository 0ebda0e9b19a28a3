// Reads the text of a selection: the classes of one file that it names, a line each.

ghost use Rattle.std.specs.Prelude.{◌≡◌, ◌<◌, ℕ, length, option_map, IfOk, IfSome};
ghost use Rattle.pi_job.specs.Selection.{class_called, class_on, selection_of, SaysSelection, IsWrongClass};
ghost use Rattle.pi_job.specs.Telling.{Answers, OnLine};

use crate::fault::TextFault;
use crate::lines::{first_line, next_line};
use crate::units::text_units;
use pi_model::listed::Listed;
use pi_model::numbers::{ClassNo, FileNo};
use pi_model::prog::Prog;
use std::alloc::{AllocError, Global};
use std::collections::BTreeSet;

/// Classes in the order in which a selection text names them.
pub type Selection = Listed<ClassNo>;

/// The class of a descriptor.
fn class_called(prog: &Prog, units: &[u16]) -> Option<ClassNo>
    ensures value { option_map (λ c. c.0) result ≡ class_called prog.now units.now }
    ensures below { IfSome result (λ c. c.0 < length prog.now.classes) }
{
    prog.find_class(prog.find_name(units)?)
}

/// The class of the file that a line names.
fn class_on(
    alloc: Global,
    prog: &Prog,
    file: FileNo,
    line: &[u8],
) -> Result<Option<ClassNo>, AllocError>
    ensures { IfOk result (λ class. class ≡ class_on prog.now file.0 line.now) }
{
    let Some(units) = text_units(alloc, line)? else {
        return Ok(None);
    };
    let Some(class) = class_called(prog, units.as_slice()) else {
        return Ok(None);
    };
    Ok((prog.class(class).file == file).then_some(class))
}

/// The classes that a selection text names, in the order of its lines.
///
/// Line where one is no UTF-8, names no class that this file defines, or one that an earlier line names.
pub fn read_selection(
    alloc: Global,
    prog: &Prog,
    file: FileNo,
    bytes: &[u8],
) -> Result<Selection, TextFault>
    ensures ok { IfOk result (SaysSelection prog.now file.0 bytes.now) }
    ensures line { OnLine result (IsWrongClass prog.now file.0 bytes.now) }
    ensures exact { Answers (selection_of prog.now file.0 bytes.now) result }
{
    let mut classes = Selection::new(alloc);
    let mut seen = BTreeSet::new(alloc);
    let mut rest = bytes;
    let mut n = 1u32;
    while !rest.is_empty() {
        let (line, behind) = first_line(rest);
        if !line.is_empty() {
            let Some(class) = class_on(alloc, prog, file, line)? else {
                return Err(TextFault::Line(n));
            };
            if !seen.insert(class.0)? {
                return Err(TextFault::Line(n));
            }
            classes.push(class)?;
        }
        rest = behind;
        n = next_line(n);
    }
    Ok(classes)
}
