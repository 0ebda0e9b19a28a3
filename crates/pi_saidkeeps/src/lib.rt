// What the format asks of classes holds of those that files say.
//
// Proved: where a file breaks no rule, all that X13 to X23 ask of classes (`specs/Asked` of `pi_contents`) holds of the
// classes that it says behind any program (`said_is_of_format`), and so of the classes of each file of a chain, by the names
// of the whole chain (`files_are_of_format`). Linking and verification take their facts of codes from here.
#![tactic(auto)]

ghost use Rattle.std.specs.Prelude.{◌≡◌, ◌≤◌, ℕ, List, length, map, None};
ghost use Rattle.std.specs.List.{All};
ghost use Rattle.pi_model.specs.Program.{Program};
ghost use Rattle.pi_bytes.specs.Numbers.{most_bytes};
ghost use Rattle.pi_format.specs.Rules.{broken_rule};
ghost use Rattle.pi_format.specs.Says.{Says, named_file, with_said};
ghost use Rattle.pi_format.specs.Says.Classes.{classes_said};
ghost use Rattle.pi_contents.specs.Asked.{IsOfFormat};
ghost use Rattle.pi_contents.specs.Named.{content_in};
ghost use Rattle.pi_saidkeeps.specs.Chains.{AreBytes, classes_of};

/// The law that what the format asks holds of the classes that a file says which breaks no rule.
pub fn said_is_of_format()
    ensures { (p : Program) (file : List ℕ) (number : ℕ) → AreBytes file → length file ≤ most_bytes → broken_rule file ≡ None
        → IsOfFormat (map (content_in (with_said p file)) (classes_said (named_file p file) number)) }
{}

/// The law that it holds of the classes of each file of a chain of up to eight files.
pub fn files_are_of_format()
    ensures { (files : List (List ℕ)) (p : Program) (number : ℕ) → Says files p → length files ≤ 8
        → All AreBytes files → All (λ file. length file ≤ most_bytes) files
        → IsOfFormat (map (content_in p) (classes_of p number)) }
{}
