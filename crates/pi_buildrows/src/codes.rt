// The code of a method that rows describe.
use pi_model::describe::{Catch, Code, Insns, Line, Tries};
use pi_model::insn::{Case, Cases, Insn};
use pi_model::listed::Listed;
use pi_model::numbers::NameNo;
use pi_rows::fault::Fault;
use pi_rows::words::{halves, numbers_of};
use std::alloc::Global;
use std::mem;

/// The instructions and the handlers of the next code, the code of the next method, and its switches that have all their keys.
#[derive(Drop)]
pub(crate) struct Lines {
    insns: Insns,
    tries: Tries,
    code: Option<Code>,
    keys: Listed<u32>,
}

impl Lines {
    pub(crate) fn new(alloc: Global) -> Lines {
        Lines {
            insns: Insns::new(alloc),
            tries: Tries::new(alloc),
            code: None,
            keys: Listed::new(alloc),
        }
    }

    /// Follows a row of numbers.
    pub(crate) fn follow_numbers(
        &mut self,
        alloc: Global,
        verb: &str,
        numbers: &[u32],
    ) -> Result<(), Fault> {
        match (verb, numbers) {
            ("keys", addresses) => {
                self.keys.extend_from_slice(addresses)?;
                Ok(())
            }
            ("catch", [from, to, at]) => self.add_catch(*from, *to, *at, None),
            ("catch", [from, to, at, ty]) => self.add_catch(*from, *to, *at, Some(NameNo(*ty))),
            ("code", [regs, ins, outs, units]) => {
                self.end_code(alloc, *regs, *ins, *outs, *units)
            }
            _ => Err(Fault::NoRow),
        }
    }

    fn add_catch(&mut self, from: u32, to: u32, at: u32, ty: Option<NameNo>) -> Result<(), Fault> {
        self.tries.push(Catch { from, to, ty, at })?;
        Ok(())
    }

    /// Adds an instruction.
    pub(crate) fn add_line(&mut self, alloc: Global, rest: &str) -> Result<(), Fault> {
        let (at, rest) = halves(rest)?;
        let (units, rest) = halves(rest)?;
        let (kind, rest) = halves(rest).unwrap_or((rest, ""));
        let numbers = numbers_of::<u32>(alloc, rest)?;
        let line = Line {
            at: at.parse::<u32>()?,
            units: units.parse::<u32>()?,
            insn: insn_of(alloc, kind, numbers.as_slice())?,
        };
        self.insns.push(line)?;
        Ok(())
    }

    fn end_code(
        &mut self,
        alloc: Global,
        regs: u32,
        ins: u32,
        outs: u32,
        units: u32,
    ) -> Result<(), Fault> {
        self.code = Some(Code {
            regs: u16::try_from(regs)?,
            ins: u16::try_from(ins)?,
            outs: u16::try_from(outs)?,
            units,
            insns: mem::replace(&mut self.insns, Insns::new(alloc)),
            tries: mem::replace(&mut self.tries, Tries::new(alloc)),
        });
        Ok(())
    }

    /// The code of a method and its switches that have all their keys, in the place of which nothing is left.
    pub(crate) fn end(&mut self, alloc: Global) -> (Option<Code>, Listed<u32>) {
        let code = self.code.take();
        let keys = mem::replace(&mut self.keys, Listed::new(alloc));
        (code, keys)
    }
}

/// An instruction on register 0.
fn insn_of(alloc: Global, kind: &str, numbers: &[u32]) -> Result<Insn, Fault> {
    match (kind, numbers) {
        ("nop", []) => Ok(Insn::Nop),
        ("void", []) => Ok(Insn::ReturnVoid),
        ("string", [name]) => Ok(Insn::ConstString {
            a: 0,
            s: NameNo(*name),
        }),
        ("type", [name]) => Ok(Insn::ConstClass {
            a: 0,
            t: NameNo(*name),
        }),
        ("switch", cases) => Ok(Insn::Switch {
            a: 0,
            cases: cases_of(alloc, cases)?,
        }),
        _ => Err(Fault::NoRow),
    }
}

/// The cases of keys and targets.
fn cases_of(alloc: Global, numbers: &[u32]) -> Result<Cases, Fault> {
    let mut cases = Cases::new(alloc);
    for pair in numbers.chunks_exact(2) {
        if let [key, to] = pair {
            cases.push(Case { key: *key, to: *to })?;
        }
    }
    Ok(cases)
}
