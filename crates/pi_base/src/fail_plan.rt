// Which calls of a form in memory fail, by their numbers from 1.
// docs/outside.md states the rules.
ghost use Rattle.std.specs.Prelude.{◌≡◌, ◌↔◌, IsTrue, IfOk};
ghost use Rattle.pi_base.specs.Counters.{NextFails, next_count};

use crate::counts::raise;
use std::alloc::{AllocError, Global};

/// The numbers of the calls that fail, and how many calls were made. A number that no `u64`
/// holds is in no list, so the calls after the last value of the count do not fail.
#[derive(Drop)]
pub(crate) struct FailPlan {
    pub(crate) fails: Vec<u64>,
    pub(crate) calls: u64,
}

impl FailPlan {
    pub(crate) fn new(alloc: Global, fails: &[u64]) -> Result<FailPlan, AllocError>
        ensures listed { IfOk result (λ plan. plan.fails.items ≡ fails.now) }
        ensures none_made { IfOk result (λ plan. plan.calls ≡ 0) }
    {
        Ok(FailPlan {
            fails: Vec::from_slice(alloc, fails)?,
            calls: 0,
        })
    }

    /// Counts a call, and says whether it fails.
    pub(crate) fn next_fails(&mut self) -> bool
        ensures fails { IsTrue result ↔ NextFails self.old.fails.items self.old.calls }
        ensures counted { self.new.calls ≡ next_count self.old.calls }
        ensures list_stands { self.new.fails ≡ self.old.fails }
    {
        let fails = self.fails.as_slice();
        let Some(number) = self.calls.checked_add(1) else {
            return false;
        };
        self.calls = number;
        fails.contains(&number)
    }
}
