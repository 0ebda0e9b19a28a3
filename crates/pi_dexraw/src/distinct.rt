// Whether the numbers of a list are distinct, by a mark for each number that is left from list to list.

ghost use Rattle.std.specs.Prelude.{◌≡◌, ◌+◌, nat_eq, length};
ghost use Rattle.pi_model.specs.Distinct.{all_distinct};
ghost use Rattle.pi_dexraw.specs.Interfaces.{AreInRange};

use pi_dexids::facts::note;

/// Whether the numbers of a list are distinct. Marks below the given one are those of other lists.
pub(crate) fn are_distinct(marks: &mut Vec<u32>, mark: u32, list: &[u16]) -> bool
    requires range { AreInRange (length marks.old.items) list.now }
    requires fresh { AreInRange mark marks.old.items }
    ensures value { result ≡ all_distinct nat_eq list.now }
    ensures kept { AreInRange (mark + 1) marks.new.items }
    ensures same { length marks.new.items ≡ length marks.old.items }
{
    for done in 0..list.len() {
        let k = list[list.len() - 1 - done] as usize;
        if marks[k] == mark {
            return false;
        }
        note(marks, k, mark);
    }
    true
}
