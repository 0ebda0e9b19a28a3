// Indices of a file's tables, and things by number.

ghost use Rattle.std.specs.Prelude.{◌≡◌, ◌+◌, ◌≤◌, length, nat_lt, slice_get, option_copied};
ghost use Rattle.pi_format.specs.Tables.{count_at};

use pi_bytes::numbers::word;

/// Whether an index is one of the table whose size stands at that place of the header.
pub(crate) fn is_index(file: &[u8], index: u32, table: usize) -> bool
    requires { table + 4 ≤ length file.now }
    ensures { result ≡ nat_lt index (count_at file.now table) }
{
    index < word(file, table)
}

/// The thing at a place of a list, None where the list is no longer than that.
pub(crate) fn nth<T>(things: &[T], k: usize) -> Option<&T>
    ensures { option_copied result ≡ slice_get things.now k }
{
    things.get(k)
}
