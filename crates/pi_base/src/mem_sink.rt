// A sink in memory, with room that is taken when it is made, and with calls that fail by their
// numbers. docs/outside.md states the rules.
ghost use Rattle.std.specs.Prelude.{◌≡◌, ℕ, ◌+◌, ◌<◌, ◌≤◌, ◌⊎◌, ◌↔◌, min, length, IfOk, IsErr, OnErr, [], vec_len, vec_capacity};
ghost use Rattle.pi_base.specs.Counters.{NextFails, next_count};
ghost use Rattle.pi_base.specs.Outside.{TakesFront};

use crate::counts::raise;
use crate::fail_plan::FailPlan;
use crate::outside::{Sink, SinkError};
use std::alloc::{AllocError, Global};

/// Keeps what it takes, as far as its room goes.
#[derive(Drop)]
pub struct MemSink {
    kept: Vec<u8>,
    room: usize,
    plan: FailPlan,
    faults: u64,
    ghost room_is_taken: { vec_len kept + room ≤ vec_capacity kept },
}

impl MemSink {
    ghost use Rattle.pi_base.specs.MemSink.{taken_of, view_of, room_of, fails_of, calls_of};

    /// A sink with room for `room` bytes, which fails the calls whose numbers from 1 are in
    /// `fails`.
    pub fn new(alloc: Global, room: usize, fails: &[u64]) -> Result<MemSink, AllocError>
        ensures empty { IfOk result (λ sink. taken_of sink ≡ []) }
        ensures room { IfOk result (λ sink. room_of sink ≡ room) }
        ensures fails { IfOk result (λ sink. fails_of sink ≡ fails.now) }
        ensures calls { IfOk result (λ sink. calls_of sink ≡ 0) }
        ensures faults { IfOk result (λ sink. (view_of sink).faults ≡ 0) }
    {
        let plan = FailPlan::new(alloc, fails)?;
        Ok(MemSink {
            kept: Vec::with_capacity(alloc, room)?,
            room,
            plan,
            faults: 0,
        })
    }

    /// All that it took so far.
    pub fn bytes(&self) -> &[u8]
        ensures { result.now ≡ taken_of self.now }
    {
        self.kept.as_slice()
    }
}

impl Sink for MemSink {
    ghost use Rattle.pi_base.specs.MemSink.{taken_of, view_of, room_of, fails_of, calls_of};

    ghost view = { view_of };

    /// Keeps as much of `piece` as there is room for, and takes no memory.
    fn write(&mut self, piece: &[u8]) -> Result<usize, SinkError>
        ensures within { IfOk result (λ taken. taken ≤ length piece.now) }
        ensures progress { 0 < length piece.now → IfOk result (λ taken. 0 < taken) }
        ensures takes_front { TakesFront piece.now result (view_of self.old) (view_of self.new) }

        ensures fails { IsErr result ↔ (NextFails (fails_of self.old) (calls_of self.old) ⊎ ((room_of self.old ≡ 0) × (0 < length piece.now))) }
        ensures takes_what_fits { IfOk result (λ taken. taken ≡ min (room_of self.old) (length piece.now)) }
        ensures room_left { IfOk result (λ taken. room_of self.new + taken ≡ room_of self.old) }
        ensures room_stands { OnErr result (room_of self.new ≡ room_of self.old) }
        ensures list_stands { fails_of self.new ≡ fails_of self.old }
        ensures counts_call { calls_of self.new ≡ next_count (calls_of self.old) }
    {
        let fails = self.plan.next_fails();
        if fails || (self.room == 0 && !piece.is_empty()) {
            raise(&mut self.faults);
            return Err(SinkError::Failed);
        }
        let taken = piece.len().min(self.room);
        match self.kept.extend_from_slice(&piece[..taken]) {
            Ok(()) => {
                self.room -= taken;
                Ok(taken)
            }
            Err(_) => unreachable!(),
        }
    }
}
