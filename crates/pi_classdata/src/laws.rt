// What class data and static values that hold name is in the file.

ghost use Rattle.std.specs.Prelude.{◌≡◌, ℕ, List, Some};
ghost use Rattle.std.specs.List.{All};
ghost use Rattle.pi_format.specs.Rules.Classes.{class_entry};
ghost use Rattle.pi_format.specs.Rules.ClassData.{ClassRows, class_rows};
ghost use Rattle.pi_format.specs.Rules.Values.{EncodedValue, class_values};
ghost use Rattle.pi_classdata.specs.There.{AreMembers, NamesThere};

/// The law that the members that a class lists are there and belong to it.
pub fn rows_are_members()
    ensures { (file : List ℕ) (i : ℕ) (rows : ClassRows) → class_rows file i ≡ Some rows → AreMembers file (class_entry file i).class rows }
{}

/// The law that the strings and the classes that are static values are there.
pub fn values_are_there()
    ensures { (file : List ℕ) (i : ℕ) (values : List EncodedValue) → class_values file i ≡ Some values → All (NamesThere file) values }
{}
