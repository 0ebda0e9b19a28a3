// Reads the texts of jobs and of selections. docs/job.md states both.
//
// Proved: `read_job` and `read_selection` answer exactly the job, or the classes, that the text says, and else the first
// line that breaks a rule, or the one that is wanting at the end; only want of memory is free. The law `first_broken_line`
// says it of whole texts: lines are taken one after another, and a line is named exactly where those before it are taken
// and it is not. The program does not use it yet.
#![tactic(auto)]

mod draft;
mod fault;
mod job;
mod laws;
mod lines;
mod names;
mod numbers;
mod reading;
mod selection;
mod units;

pub use fault::TextFault;
pub use job::{ImageLine, ImageLines, Job, Word, Words};
pub use laws::{first_broken_line, lines_of_text};
pub use reading::read_job;
pub use selection::{Selection, read_selection};
