// Laws of the definitions of `pi_dexpools`, by which what classes name is gathered once, in the order of its first use, and
// numbered when all is known ("How classes become tables" in docs/dex-format.md, under "Numbers").
//
// Proved: what is gathered from nothing is whole, and in rising order it is what is named, with as many types and prototypes
// (`named_are_gathered`); what was there before more was gathered is taken back by its counts (`gathered_are_taken_back`); and
// a place that was told while only a part was gathered has the number of its thing among all (`places_are_numbered`).
#![tactic(auto)]

ghost use Rattle.std.specs.Prelude.{◌≡◌, ◌++◌, List, length, map};
ghost use Rattle.pi_contents.specs.Contents.{Naming};
ghost use Rattle.pi_classtables.specs.Numbers.{pools_of, index_of};
ghost use Rattle.pi_dexpools.specs.declared.gathered.Gathered.{Gathered};
ghost use Rattle.pi_dexpools.specs.Gathered.{nothing_gathered, counts_of, cut, gathered, places_of};
ghost use Rattle.pi_dexpools.specs.Ranked.{numbering, number_of, ranks_of, AreWhole};

/// The law that what is gathered is whole, and that in rising order it is what is named, each thing once.
pub fn named_are_gathered()
    ensures whole { (ns : List Naming) → AreWhole (gathered nothing_gathered ns) }
    ensures all { (ns : List Naming) → numbering (gathered nothing_gathered ns) ≡ pools_of ns }
    ensures types { (ns : List Naming) → length (gathered nothing_gathered ns).types ≡ length (pools_of ns).types }
    ensures protos { (ns : List Naming) → length (gathered nothing_gathered ns).protos ≡ length (pools_of ns).protos }
{}

/// The law that what is gathered behind other things is taken back by their counts.
pub fn gathered_are_taken_back()
    ensures { (g : Gathered) (ns : List Naming) → cut (counts_of g) (gathered g ns) ≡ g }
{}

/// The law that the number at the place of a thing is its number among all.
pub fn places_are_numbered()
    ensures { (before ns after : List Naming)
        → map (number_of (ranks_of (gathered nothing_gathered (before ++ (ns ++ after))))) (places_of (gathered nothing_gathered before) ns)
        ≡ map (index_of (pools_of (before ++ (ns ++ after)))) ns }
{}
