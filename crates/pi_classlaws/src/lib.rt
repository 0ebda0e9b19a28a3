// Laws of the definitions of `pi_classtables`, by which classes become the tables of a file.
//
// Proved: the tables are closed and in order, bytes can spell them, and they say exactly the classes, with the members of each
// in the order of a file (`classes_are_said`); what each of the rules X13 to X23 asks of classes is what it asks of these
// tables (`classes_keep_rules`); and so a file that says the tables says the classes again, and keeps each rule of which what
// it asks of classes holds, whatever becomes of the others (`classes_are_written`).
#![tactic(auto)]

ghost use Rattle.std.specs.Prelude.{◌≡◌, ◌<◌, ◌^◌, ℕ, List, length, map, Some, IsTrue};
ghost use Rattle.std.specs.List.{All, list_all};
ghost use Rattle.pi_format.specs.Rules.Descriptors.{is_descriptor};
ghost use Rattle.pi_dextables.specs.declared.tables.Tables.{Tables};
ghost use Rattle.pi_dextables.specs.Rows.{all_bodies};
ghost use Rattle.pi_dextables.specs.Said.{IsSaid};
ghost use Rattle.pi_dextables.specs.Writable.{IsHalf, IsWritable};
ghost use Rattle.pi_contents.specs.Naming.{named_by, types_named, protos_named, fields_named, methods_named};
ghost use Rattle.pi_contents.specs.Asked.{proto_fits, field_fits, method_fits, members_fit, inits_fit, bodies_fit, codes_fit};
ghost use Rattle.pi_tablesaid.specs.Entries.{text_at, prototype_of, field_of, method_of};
ghost use Rattle.pi_tablesaid.specs.Content.{content_of};
ghost use Rattle.pi_tablesaid.specs.Closed.{IsClosed};
ghost use Rattle.pi_tablesaid.specs.Kept.{class_values_hold, class_codes_hold, WalkEnds, PointsWell};
ghost use Rattle.pi_classtables.specs.Whole.{Added, classes_added, filed, tables_of};
ghost use Rattle.pi_classtables.specs.Spelled.{IsSpelled};
ghost use Rattle.pi_classtables.specs.Sized.{IsSized, sparse_rises};
ghost use Rattle.pi_classlaws.specs.Written.{KeepsRules, SaysAgain};

/// The law that the tables of classes are closed, and say the classes again, each with its members in the order of a file.
pub fn classes_are_said()
    ensures closed { (es : List Added) (t : Tables) → All IsSpelled es → All IsSized (classes_added es)
        → tables_of es ≡ Some t → IsClosed t }
    ensures said { (es : List Added) (t : Tables) → All IsSpelled es → All IsSized (classes_added es)
        → tables_of es ≡ Some t → content_of t ≡ map filed es }
    ensures writable { (es : List Added) (t : Tables) → All IsSpelled es → All IsSized (classes_added es)
        → tables_of es ≡ Some t → All (λ (s : List ℕ). All IsHalf s) t.strings → length t.strings < 2 ^ 32
        → length t.fields < 2 ^ 32 → length t.methods < 2 ^ 32 → IsWritable t }
{}

/// The law that what a rule asks of classes is what it asks of their tables. Nothing is asked for X21: codes that are laid out
/// as the writer lays them out keep it.
pub fn classes_keep_rules()
    ensures x13 { (es : List Added) (t : Tables) → tables_of es ≡ Some t
        → IsTrue (list_all is_descriptor (types_named (named_by (classes_added es))))
        → IsTrue (list_all is_descriptor (map (text_at t) t.types)) }
    ensures x14 { (es : List Added) (t : Tables) → tables_of es ≡ Some t
        → IsTrue (list_all proto_fits (protos_named (named_by (classes_added es))))
        → IsTrue (list_all proto_fits (map (prototype_of t) t.protos)) }
    ensures x15 { (es : List Added) (t : Tables) → tables_of es ≡ Some t
        → IsTrue (list_all field_fits (fields_named (named_by (classes_added es))))
        → IsTrue (list_all field_fits (map (field_of t) t.fields)) }
    ensures x16 { (es : List Added) (t : Tables) → tables_of es ≡ Some t
        → IsTrue (list_all method_fits (methods_named (named_by (classes_added es))))
        → IsTrue (list_all method_fits (map (method_of t) t.methods)) }
    ensures x18 { (es : List Added) → IsTrue (list_all members_fit (classes_added es)) → IsTrue (list_all members_fit (map filed es)) }
    ensures x19 { (es : List Added) (t : Tables) → All IsSpelled es → All IsSized (classes_added es) → tables_of es ≡ Some t
        → IsTrue (list_all inits_fit (classes_added es)) → IsTrue (list_all (class_values_hold t) t.classes) }
    ensures x20 { (es : List Added) (t : Tables) → All IsSpelled es → All IsSized (classes_added es) → tables_of es ≡ Some t
        → IsTrue (list_all bodies_fit (classes_added es)) → IsTrue (list_all (class_codes_hold t) t.classes) }
    ensures x21 { (es : List Added) (t : Tables) → All IsSpelled es → All IsSized (classes_added es) → tables_of es ≡ Some t
        → All WalkEnds (all_bodies t.classes) }
    ensures x23 { (es : List Added) (t : Tables) → All IsSpelled es → All IsSized (classes_added es) → tables_of es ≡ Some t
        → IsTrue (list_all codes_fit (classes_added es)) → IsTrue (list_all sparse_rises es)
        → All PointsWell (all_bodies t.classes) }
{}

/// The law that a file which says the tables of classes says the classes again, and keeps each rule of which what it asks of
/// classes holds.
pub fn classes_are_written()
    ensures kept { (es : List Added) (t : Tables) (file : List ℕ) → All IsSpelled es → All IsSized (classes_added es)
        → tables_of es ≡ Some t → IsWritable t → IsSaid file t → KeepsRules es file }
    ensures said { (es : List Added) (t : Tables) (file : List ℕ) → All IsSpelled es → All IsSized (classes_added es)
        → tables_of es ≡ Some t → IsWritable t → IsSaid file t → SaysAgain es file }
{}
