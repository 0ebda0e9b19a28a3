// Runs the rows of the files in data/, and prints a line for each case. Rows are data: a new case needs no new code and no
// new proof. bench/make_cases.py writes the rows and the lines that are wanted; docs/WORKING.md says how one is added.
#![tactic(auto)]

mod first;
mod limits;
mod moody;
mod outside;
mod sinks;
mod stores;
mod top;

use outside::Outside;
use pi_buildrows::builds::Builds;
use pi_layrows::layouts::Layouts;
use pi_partrows::acts::Acts;
use pi_partrows::arith::Arithmetic;
use pi_partrows::frames::Counted;
use pi_partrows::insns::Instructions;
use pi_partrows::lists::Lists;
use pi_partrows::literals::Watched;
use pi_partrows::memory::Spaces;
use pi_partrows::numbers::Numbers;
use pi_partrows::patch::Moves;
use pi_readrows::asmtext::AsmText;
use pi_readrows::jobs::Jobs;
use pi_readrows::lookups::Lookups;
use pi_readrows::reader::Reader;
use pi_rows::follow::follow_rows;
use std::alloc::Global;
use std::io;
use top::Top;

fn main(rt: HostRuntime) -> io::Result<()> {
    let alloc = rt.alloc();
    follow_rows(&rt, "outside", Outside::new())?;
    follow_rows(&rt, "top", Top::new(alloc))?;
    for file in ["raw", "members", "code", "reader"].iter() {
        follow_rows(&rt, file, Reader::new(alloc))?;
    }
    follow_rows(&rt, "layouts", Layouts::new(alloc))?;
    follow_rows(&rt, "builds", Builds::new(alloc))?;
    follow_rows(&rt, "jobs", Jobs::new(alloc))?;
    follow_rows(&rt, "asmtext", AsmText::new(alloc))?;
    follow_parts(&rt, alloc)?;
    follow_stores(&rt, alloc)
}

fn follow_parts(rt: &HostRuntime, alloc: Global) -> io::Result<()> {
    follow_rows(rt, "arith", Arithmetic)?;
    follow_rows(rt, "insns", Instructions::new(alloc))?;
    follow_rows(rt, "numbers", Numbers::new(alloc))?;
    follow_rows(rt, "lists", Lists::new(alloc))?;
    follow_rows(rt, "lookups", Lookups::new(alloc))
}

fn follow_stores(rt: &HostRuntime, alloc: Global) -> io::Result<()> {
    follow_rows(rt, "memory", Acts::<Spaces>::new(alloc))?;
    follow_rows(rt, "frames", Acts::<Counted>::new(alloc))?;
    follow_rows(rt, "literals", Acts::<Watched>::new(alloc))?;
    follow_rows(rt, "patch", Acts::<Moves>::new(alloc))
}
