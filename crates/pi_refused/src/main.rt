// The program again, over a file that a rule refuses: it ends with that status and with nothing on standard output.
// docs/commands.md states the line.
#![tactic(auto)]

use pi_base::file_store::FileStore;
use pi_base::stream_sink::{ErrSink, OutSink};
use pi_top::{run_program, words_behind_name};
use std::process::ExitCode;

fn main(rt: HostRuntime) -> ExitCode {
    let alloc = rt.alloc();
    let mut out = OutSink::new(rt.stdout());
    let mut err = ErrSink::new(rt.stderr());
    let words = words_behind_name(&rt);
    let mut files = FileStore::new(rt);
    run_program(alloc, &words, &mut files, &mut out, &mut err)
}
