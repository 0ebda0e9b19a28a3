// Definitions: which tables of a file classes become by their contents (`specs/Whole`, over what they name in rising order,
// `specs/Numbers`, the forms of instructions, `specs/Forms`, the layout of codes, `specs/Layout`, ranges and values), and when
// a file can say a class (`specs/Spelled`, `specs/Sized`). docs/dex-format.md states it in words, under "How classes become
// tables".
//
// Proved here: nothing but that the definitions compute on worked examples, in proofs/. `pi_classlaws` has the laws.
#![tactic(auto)]
