// That the numbers in a class, and the units of texts, fit the types that a program has for them. A contract sees a number
// behind a reference as any number, so who states a law of classes that rests on these bounds reads the class here first.
// docs/dex-format.md states the law, under "How classes become tables".
//
// Proved: the numbers in a class fit, and its instructions name what they are of a kind to name (`sized`); so do the units of
// texts (`halves`); and whether a file can say a class does not depend on the texts of its names (`whatever_the_names`).
#![tactic(auto)]

mod classes;
mod codes;
mod laws;
mod range;
mod texts;

pub use classes::sized;
pub use laws::whatever_the_names;
pub use texts::halves;
