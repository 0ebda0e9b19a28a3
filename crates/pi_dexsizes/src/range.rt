// What is made of numbers, each of which fits its type. It takes no memory, and changes nothing.

ghost use Rattle.std.specs.Prelude.{All, IfSome};

use pi_model::listed::Listed;

/// What is made of numbers that fit their types, as reading them shows.
pub(crate) trait InRange {
    ghost in_range: { Self → Type 0 };

    fn read(&self)
        ensures { in_range self.now };
}

impl<T: InRange> InRange for Option<T> {
    ghost in_range = { λ o. IfSome o T.in_range };

    fn read(&self) {
        if let Some(value) = self {
            value.read();
        }
    }
}

impl<T: InRange> InRange for Listed<T> {
    ghost in_range = { All T.in_range };

    fn read(&self) {
        read_all(self.as_slice());
    }
}

/// Reads each value of a list.
pub(crate) fn read_all<T: InRange>(values: &[T])
    ensures { All T.in_range values.now }
{
    for value in values {
        value.read();
    }
}
