// How many kinds of things the map of a file names.

ghost use Rattle.std.specs.Prelude.{◌≡◌, ◌≤◌, ◌+◌, ◌==◌, not, length, if◌then◌else◌};
ghost use Rattle.pi_dextables.specs.Image.{listing, positive, kind_counts, type_lists, value_arrays};
ghost use Rattle.pi_dextables.specs.Rows.{bodies_in, all_bodies};

use pi_dextables::tables::{Class, MethodRow, Tables};

/// Whether a class has no members.
fn is_bare(class: &Class) -> bool
    ensures { result ≡ (length class.now.statics + length class.now.instances + length class.now.directs + length class.now.virtuals == 0) }
{
    class.statics.is_empty()
        && class.instances.is_empty()
        && class.directs.is_empty()
        && class.virtuals.is_empty()
}

/// How many classes have members.
pub(crate) fn listing(classes: &[Class]) -> usize
    ensures { result ≡ listing classes.now }
{
    let mut count = 0;
    for class in classes {
        if !is_bare(class) {
            count += 1;
        }
    }
    count
}

/// Whether no method has a code.
fn have_no_code(methods: &[MethodRow]) -> bool
    ensures { result ≡ (length (bodies_in methods.now) == 0) }
{
    for method in methods {
        if method.code.is_some() {
            return false;
        }
    }
    true
}

/// 0 where no method of a class has a code, else 1.
fn code_kinds(classes: &[Class]) -> usize
    ensures { result ≡ (if length (all_bodies classes.now) == 0 then 0 else 1) }
{
    for class in classes {
        if !have_no_code(class.directs.as_slice()) || !have_no_code(class.virtuals.as_slice()) {
            return 1;
        }
    }
    0
}

/// How many of the counts are not 0.
fn positive(counts: &[usize]) -> usize
    ensures exact { result ≡ positive counts.now }
    ensures few { result ≤ length counts.now }
{
    let mut found = 0;
    for count in counts {
        if *count > 0 {
            found += 1;
        }
    }
    found
}

/// How many kinds the map names, by the numbers of lists of types and of arrays of static values.
pub(crate) fn kinds_of(tables: &Tables, lists: usize, arrays: usize) -> usize
    requires lists { lists ≡ length (type_lists tables.now) }
    requires arrays { arrays ≡ length (value_arrays tables.now) }
    ensures exact { result ≡ positive (kind_counts tables.now) }
    ensures few { result ≤ 13 }
{
    let classes = tables.classes.as_slice();
    positive(&[
        1,
        tables.strings.len(),
        tables.types.len(),
        tables.protos.len(),
        tables.fields.len(),
        tables.methods.len(),
        classes.len(),
        1,
        lists,
        code_kinds(classes),
        tables.strings.len(),
        listing(classes),
        arrays,
    ])
}
