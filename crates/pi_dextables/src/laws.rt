// The law of the bytes of tables. It needs nothing and does nothing.

ghost use Rattle.pi_dextables.specs.declared.tables.Tables.{Tables};
ghost use Rattle.pi_dextables.specs.Image.{image};
ghost use Rattle.pi_dextables.specs.Writable.{IsWritable, IsShort, PlacesFit};
ghost use Rattle.pi_dextables.specs.Said.{HasForm, IsSaid};

/// The bytes of tables have the form of a file, and say these tables.
pub fn written_tables_are_read()
    ensures form { (t : Tables) → IsWritable t → IsShort t → HasForm (image t) }
    ensures said { (t : Tables) → IsWritable t → PlacesFit t → IsShort t → IsSaid (image t) t }
{}
