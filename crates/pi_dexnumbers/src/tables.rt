// What is gathered as the tables of a file.

ghost use Rattle.std.specs.Prelude.{◌≡◌, ◌≤◌, length, map, IfOk};
ghost use Rattle.pi_classtables.specs.Numbers.{string_no, proto_entry, field_entry, method_entry};
ghost use Rattle.pi_dexpools.specs.Ranked.{numbering, ranks_of, AreWhole};

use crate::members::rank_members;
use crate::protos::rank_protos;
use crate::types::rank_types;
use pi_dexpools::gathered::{Gathered, Ranks};
use pi_dexranks::rank_texts;
use pi_dextables::tables::{Member, Proto};
use pi_model::listed::{Listed, Texts};
use std::alloc::{AllocError, Global};

/// The first tables of a file, and the number of each thing that was gathered.
#[derive(Debug, Drop)]
pub struct Numbered {
    pub strings: Texts,
    pub types: Listed<u32>,
    pub protos: Listed<Proto>,
    pub fields: Listed<Member>,
    pub methods: Listed<Member>,
    pub ranks: Ranks,
}

/// What is gathered as the tables of a file, each kind in rising order, and the number of each thing.
pub fn number_tables(alloc: Global, all: Gathered) -> Result<Numbered, AllocError>
    requires whole { AreWhole all }
    requires types { length all.types ≤ 65535 }
    requires protos { length all.protos ≤ 65535 }
    ensures strings { IfOk result (λ n. n.strings ≡ (numbering all).strings) }
    ensures types { IfOk result (λ n. n.types ≡ map (string_no (numbering all)) (numbering all).types) }
    ensures protos { IfOk result (λ n. n.protos ≡ map (proto_entry (numbering all)) (numbering all).protos) }
    ensures fields { IfOk result (λ n. n.fields ≡ map (field_entry (numbering all)) (numbering all).fields) }
    ensures methods { IfOk result (λ n. n.methods ≡ map (method_entry (numbering all)) (numbering all).methods) }
    ensures ranks { IfOk result (λ n. n.ranks ≡ ranks_of all) }
{
    let texts = rank_texts(alloc, all.texts)?;
    let text_ranks = texts.ranks.as_slice();
    let types = rank_types(alloc, all.types.as_slice(), text_ranks)?;
    let type_ranks = types.ranks.as_slice();
    let protos = rank_protos(alloc, all.protos.as_slice(), text_ranks, type_ranks)?;
    let fields = rank_members(
        alloc,
        all.fields.as_slice(),
        type_ranks,
        text_ranks,
        type_ranks,
    )?;
    let methods = rank_members(
        alloc,
        all.methods.as_slice(),
        type_ranks,
        text_ranks,
        protos.ranks.as_slice(),
    )?;
    Ok(Numbered {
        strings: texts.sorted,
        types: types.entries,
        protos: protos.entries,
        fields: fields.entries,
        methods: methods.entries,
        ranks: Ranks {
            texts: texts.ranks,
            types: types.ranks,
            fields: fields.ranks,
            methods: methods.ranks,
        },
    })
}
