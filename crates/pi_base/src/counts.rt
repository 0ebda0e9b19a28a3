// The counts of what a store refused. Each is a u64 that stands at its last value.
// docs/outside.md states the rules.
ghost use Rattle.std.specs.Prelude.{◌≡◌, true};
ghost use Rattle.pi_base.specs.Counters.{next_count};
ghost use Rattle.pi_base.specs.Outside.{Counts, is_failed_error, is_missing_error, is_too_large_error};

use crate::outside::StoreError;

/// How often a store refused a call, by cause.
#[derive(Drop)]
pub(crate) struct StoreCounts {
    pub(crate) read_faults: u64,
    pub(crate) write_faults: u64,
    pub(crate) misses: u64,
    pub(crate) overs: u64,
}

impl StoreCounts {
    pub(crate) fn new() -> StoreCounts
        ensures read_faults { result.read_faults ≡ 0 }
        ensures write_faults { result.write_faults ≡ 0 }
        ensures misses { result.misses ≡ 0 }
        ensures overs { result.overs ≡ 0 }
    {
        StoreCounts {
            read_faults: 0,
            write_faults: 0,
            misses: 0,
            overs: 0,
        }
    }

    /// Counts a refused read under its cause. Want of memory has no count.
    pub(crate) fn note_read(&mut self, error: StoreError)
        ensures read_faults { Counts (is_failed_error error) self.old.read_faults self.new.read_faults }
        ensures write_faults { self.new.write_faults ≡ self.old.write_faults }
        ensures misses { Counts (is_missing_error error) self.old.misses self.new.misses }
        ensures overs { Counts (is_too_large_error error) self.old.overs self.new.overs }
    {
        match error {
            StoreError::OutOfMemory => {}
            StoreError::Missing => raise(&mut self.misses),
            StoreError::TooLarge => raise(&mut self.overs),
            StoreError::Failed => raise(&mut self.read_faults),
        }
    }

    /// Counts a failed write.
    pub(crate) fn note_write_fault(&mut self)
        ensures read_faults { self.new.read_faults ≡ self.old.read_faults }
        ensures write_faults { Counts true self.old.write_faults self.new.write_faults }
        ensures misses { self.new.misses ≡ self.old.misses }
        ensures overs { self.new.overs ≡ self.old.overs }
    {
        raise(&mut self.write_faults);
    }
}

/// Makes a count one greater, unless it is at its last value.
pub(crate) fn raise(count: &mut u64)
    ensures raised { count.new ≡ next_count count.old }
    ensures counts { Counts true count.old count.new }
{
    *count = count.saturating_add(1);
}
