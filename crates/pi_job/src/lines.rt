// Lines of a text, cut off one after the other.

ghost use Rattle.std.specs.Prelude.{◌≡◌, ◌<◌, ◌≤◌, ◌∷◌, length};
ghost use Rattle.pi_job.specs.Lines.{lines, front_of, behind_of};
ghost use Rattle.pi_job.specs.Telling.{next_line};

/// The bytes before the first mark, and those behind it; all and none where there is no mark.
pub(crate) fn cut(mark: u8, bytes: &[u8]) -> (&[u8], &[u8])
    ensures front { result.0.now ≡ front_of mark bytes.now }
    ensures behind { result.1.now ≡ behind_of mark bytes.now }
    ensures shorter { 0 < length bytes.now → length result.1.now < length bytes.now }
{
    for at in 0..bytes.len() {
        if bytes[at] == mark {
            let (front, behind) = bytes.split_at(at);
            return (front, behind.split_at(1).1);
        }
    }
    (bytes, bytes.split_at(bytes.len()).1)
}

/// The first line of a text that is not empty, and the text behind it.
pub(crate) fn first_line(bytes: &[u8]) -> (&[u8], &[u8])
    requires { 0 < length bytes.now }
    ensures lines { lines bytes.now ≡ result.0.now ∷ lines result.1.now }
    ensures shorter { length result.1.now < length bytes.now }
{
    cut(b'\n', bytes)
}

/// The number of the next line, or the same where 32 bits count no further.
pub(crate) fn next_line(n: u32) -> u32
    ensures { result ≡ next_line n }
{
    n.saturating_add(1)
}
