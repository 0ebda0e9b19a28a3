// Rules X21 to X23 on the units of all code items, each of which is walked once.

ghost use Rattle.std.specs.Prelude.{◌≡◌, None, true, IfOk};
ghost use Rattle.pi_format.specs.Rules.CodeItems.{code_lies, broken_code};
ghost use Rattle.pi_format.specs.Rules.Pieces.{broken_walk, broken_index, broken_payload};
ghost use Rattle.pi_dex.specs.Judged.{no_faults, both_faults, code_faults};
ghost use Rattle.pi_dex.specs.Shared.{AreCodes};

use crate::places::unit_place;
use pi_classdata::lower;
use pi_codeitem::{broken_index, broken_payload, pieces_fill_up, units, walk};
use pi_dexraw::Raw;
use std::alloc::{AllocError, Global};

/// The lowest places at which rules on units are broken: where no instruction stands, where an index is out of range, and
/// where no payload fits.
#[derive(Drop)]
pub(crate) struct Faults {
    pub walk: Option<u32>,
    pub index: Option<u32>,
    pub payload: Option<u32>,
}

impl Faults {
    /// No fault.
    fn none() -> Faults
        ensures { result ≡ no_faults }
    {
        Faults {
            walk: None,
            index: None,
            payload: None,
        }
    }

    /// The lower ones of two.
    fn both(self, other: Faults) -> Faults
        ensures { result ≡ both_faults self other }
    {
        Faults {
            walk: lower(self.walk, other.walk),
            index: lower(self.index, other.index),
            payload: lower(self.payload, other.payload),
        }
    }
}

/// The faults of a code item that is in the file.
fn code_faults(alloc: Global, raw: &Raw<'_>, at: u32) -> Result<Faults, AllocError>
    requires { code_lies raw.now at ≡ true }
    ensures { IfOk result (λ f. f ≡ code_faults raw.now at) }
{
    pieces_fill_up();
    let file = raw.file();
    let units = units(alloc, file, at as usize)?;
    let walk = walk(alloc, units.as_slice())?;
    Ok(Faults {
        walk: unit_place(at, walk.stop()),
        index: unit_place(at, broken_index(file, &walk)),
        payload: unit_place(at, broken_payload(&walk)),
    })
}

/// X21 to X23: from unit 0 on there are instructions and payloads, indices are in range, and payloads fit.
#[tactic(auto, using(crate::proofs::Faults::faults_go, crate::proofs::Faults::faults_end))]
pub(crate) fn walk_rules(alloc: Global, raw: &Raw<'_>, codes: &[u32]) -> Result<Faults, AllocError>
    requires codes { AreCodes raw.now codes.now }
    requires code { broken_code raw.now ≡ None }
    ensures walk { IfOk result (λ f. f.walk ≡ broken_walk raw.now) }
    ensures index { IfOk result (λ f. f.index ≡ broken_index raw.now) }
    ensures payload { IfOk result (λ f. f.payload ≡ broken_payload raw.now) }
{
    let mut lowest = Faults::none();
    for i in 0..codes.len() {
        lowest = lowest.both(code_faults(alloc, raw, codes[i])?);
    }
    Ok(lowest)
}
