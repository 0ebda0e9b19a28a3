// Definitions: what classes hold by texts, without the numbers of a program's names (`specs/Contents`, `specs/Named`), what
// they name (`specs/Naming`), and what the rules X13 to X23 ask of them (`specs/Asked`). The reader of files, their writer
// and an assembler speak of classes by these words. docs/dex-format.md states them, under "What the rules ask of classes".
//
// Proved here: nothing but that the definitions compute on worked examples, in proofs/. `pi_saidkeeps` and `pi_tablesaid`
// have the laws.
#![tactic(auto)]
