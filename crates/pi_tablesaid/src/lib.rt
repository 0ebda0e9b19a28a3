// What a file says whose tables are given, by texts, and which of the rules X13 to X23 it keeps. A file says tables in the
// sense of `IsSaid` of `pi_dextables`; the tables are closed (`specs/Closed`): each number names an entry, and entries rise.
//
// Proved: for each rule, the file keeps it where what the rule asks holds of the tables, whatever holds of the other rules,
// but that X19 is kept only where X18 is, since the values of a class are those of the fields that it lists
// (`tables_keep_rules`); and where X18 to X20 are kept, the classes that the file says are those that the tables say
// (`tables_say_contents`).
#![tactic(auto)]

ghost use Rattle.std.specs.Prelude.{◌≡◌, ◌++◌, ℕ, List, [], map, None, IsTrue};
ghost use Rattle.std.specs.List.{All, list_all};
ghost use Rattle.pi_model.specs.Program.{Program};
ghost use Rattle.pi_format.specs.Rules.ClassData.{broken_class_data};
ghost use Rattle.pi_format.specs.Rules.Classes.{broken_classes};
ghost use Rattle.pi_format.specs.Rules.CodeItems.{broken_code};
ghost use Rattle.pi_format.specs.Rules.Descriptors.{is_descriptor};
ghost use Rattle.pi_format.specs.Rules.Members.{broken_protos, broken_fields, broken_methods};
ghost use Rattle.pi_format.specs.Rules.Pieces.{broken_walk, broken_index, broken_payload};
ghost use Rattle.pi_format.specs.Rules.Strings.{broken_types};
ghost use Rattle.pi_format.specs.Rules.Values.{broken_values};
ghost use Rattle.pi_format.specs.Says.{named_file, with_said};
ghost use Rattle.pi_format.specs.Says.Classes.{classes_said};
ghost use Rattle.pi_dextables.specs.declared.tables.Tables.{Tables};
ghost use Rattle.pi_dextables.specs.Rows.{all_bodies};
ghost use Rattle.pi_dextables.specs.Said.{IsSaid};
ghost use Rattle.pi_dextables.specs.Writable.{IsWritable};
ghost use Rattle.pi_contents.specs.Contents.{ClassContent};
ghost use Rattle.pi_contents.specs.Named.{content_in};
ghost use Rattle.pi_contents.specs.Asked.{proto_fits, field_fits, method_fits, classes_fit, members_fit};
ghost use Rattle.pi_tablesaid.specs.Entries.{text_at, prototype_of, field_of, method_of};
ghost use Rattle.pi_tablesaid.specs.Content.{content_of};
ghost use Rattle.pi_tablesaid.specs.Closed.{IsClosed};
ghost use Rattle.pi_tablesaid.specs.Kept.{class_values_hold, class_codes_hold, WalkEnds, PointsWell};

/// The law that a file which says closed tables keeps each rule that holds of them.
pub fn tables_keep_rules()
    ensures x13 { (file : List ℕ) (t : Tables) → IsSaid file t → IsWritable t → IsClosed t
        → IsTrue (list_all is_descriptor (map (text_at t) t.types)) → broken_types file ≡ None }
    ensures x14 { (file : List ℕ) (t : Tables) → IsSaid file t → IsWritable t → IsClosed t
        → IsTrue (list_all proto_fits (map (prototype_of t) t.protos)) → broken_protos file ≡ None }
    ensures x15 { (file : List ℕ) (t : Tables) → IsSaid file t → IsWritable t → IsClosed t
        → IsTrue (list_all field_fits (map (field_of t) t.fields)) → broken_fields file ≡ None }
    ensures x16 { (file : List ℕ) (t : Tables) → IsSaid file t → IsWritable t → IsClosed t
        → IsTrue (list_all method_fits (map (method_of t) t.methods)) → broken_methods file ≡ None }
    ensures x17 { (file : List ℕ) (t : Tables) → IsSaid file t → IsWritable t → IsClosed t
        → IsTrue (classes_fit (map (λ (c : ClassContent). c.name) (content_of t)) [] (content_of t)) → broken_classes file ≡ None }
    ensures x18 { (file : List ℕ) (t : Tables) → IsSaid file t → IsWritable t → IsClosed t
        → IsTrue (list_all members_fit (content_of t)) → broken_class_data file ≡ None }
    ensures x19 { (file : List ℕ) (t : Tables) → IsSaid file t → IsWritable t → IsClosed t
        → broken_class_data file ≡ None → IsTrue (list_all (class_values_hold t) t.classes) → broken_values file ≡ None }
    ensures x20 { (file : List ℕ) (t : Tables) → IsSaid file t → IsWritable t → IsClosed t
        → IsTrue (list_all (class_codes_hold t) t.classes) → broken_code file ≡ None }
    ensures x21 { (file : List ℕ) (t : Tables) → IsSaid file t → IsWritable t → IsClosed t
        → All WalkEnds (all_bodies t.classes) → broken_walk file ≡ None }
    ensures x22 { (file : List ℕ) (t : Tables) → IsSaid file t → IsWritable t → IsClosed t → broken_index file ≡ None }
    ensures x23 { (file : List ℕ) (t : Tables) → IsSaid file t → IsWritable t → IsClosed t
        → All PointsWell (all_bodies t.classes) → broken_payload file ≡ None }
{}

/// The law that the classes which the file says, behind any program, are those of the tables.
pub fn tables_say_contents()
    ensures { (p : Program) (file : List ℕ) (number : ℕ) (t : Tables) → IsSaid file t → IsWritable t → IsClosed t
        → broken_class_data file ≡ None → broken_values file ≡ None → broken_code file ≡ None
        → map (content_in (with_said p file)) (classes_said (named_file p file) number) ≡ content_of t }
{}
