// The instructions of a code that stand before its payloads.

ghost use Rattle.std.specs.Prelude.{◌≡◌, ◌≤◌, length, take};
ghost use Rattle.pi_dexcodes.specs.Front.{front_lines, end_of_lines};

use pi_model::describe::Line;

/// How many instructions stand before the payloads of a code, and the address behind them.
#[derive(Clone, Copy, Debug)]
pub(crate) struct Front {
    pub count: usize,
    pub end: u64,
}

/// The instructions of a code up to the first that does not begin where the one before it ends.
pub(crate) fn front_of(lines: &[Line]) -> Front
    ensures within { result.count ≤ length lines.now }
    ensures lines { take result.count lines.now ≡ front_lines 0 lines.now }
    ensures end { result.end ≡ end_of_lines 0 (front_lines 0 lines.now) }
{
    let mut end = 0;
    for (count, line) in lines.iter().enumerate() {
        if u64::from(line.at) != end || line.units == 0 {
            return Front { count, end };
        }
        end = u64::from(line.at) + u64::from(line.units);
    }
    Front {
        count: lines.len(),
        end,
    }
}
