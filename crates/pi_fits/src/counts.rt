// How many members classes have.

ghost use Rattle.std.specs.Prelude.{◌≡◌, ◌≤◌, ◌^◌, sum_by, MatchOption};
ghost use Rattle.pi_model.specs.Program.{field_count, method_count};

use pi_model::describe::ClassDesc;

/// How many fields classes have, None where 64 bits do not count them.
pub(crate) fn fields_of(classes: &[ClassDesc]) -> Option<u64>
    ensures { MatchOption result (2 ^ 64 ≤ sum_by field_count classes.now) (λ n. n ≡ sum_by field_count classes.now) }
{
    let mut count = 0u64;
    for class in classes {
        count = count.checked_add(class.fields.len() as u64)?;
    }
    Some(count)
}

/// How many methods classes have, None where 64 bits do not count them.
pub(crate) fn methods_of(classes: &[ClassDesc]) -> Option<u64>
    ensures { MatchOption result (2 ^ 64 ≤ sum_by method_count classes.now) (λ n. n ≡ sum_by method_count classes.now) }
{
    let mut count = 0u64;
    for class in classes {
        count = count.checked_add(class.methods.len() as u64)?;
    }
    Some(count)
}
