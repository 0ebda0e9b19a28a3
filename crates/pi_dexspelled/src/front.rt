// The instructions of a code before its payloads.

ghost use Rattle.std.specs.Prelude.{◌≡◌, ◌≤◌, length, take};
ghost use Rattle.pi_classtables.specs.Layout.{front as in_front, lines_end};
ghost use Rattle.pi_dexspelled.specs.Tests.{contents};

use pi_model::describe::Line;

/// How many instructions stand in front, and the address behind them.
#[derive(Clone, Copy, Debug)]
pub(crate) struct Front {
    pub count: usize,
    pub end: u64,
}

/// The instructions that follow each other from address 0 on.
pub(crate) fn front_of(lines: &[Line]) -> Front
    ensures lines { in_front 0 (contents lines.now) ≡ contents (take result.count lines.now) }
    ensures end { lines_end 0 (in_front 0 (contents lines.now)) ≡ result.end }
    ensures within { result.count ≤ length lines.now }
{
    let mut end = 0;
    for (count, line) in lines.iter().enumerate() {
        if u64::from(line.at) != end || line.units == 0 {
            return Front { count, end };
        }
        end = u64::from(line.at) + u64::from(line.units);
    }
    Front {
        count: lines.len(),
        end,
    }
}
