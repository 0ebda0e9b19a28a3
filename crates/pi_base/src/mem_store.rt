// A store in memory, which tells its contents and is faithful, with calls that fail by their
// numbers. docs/outside.md states the rules.
ghost use Rattle.std.specs.Prelude.{◌≡◌, ◌≢◌, ◌<◌, ◌≤◌, ◌↔◌, List, ℕ, length, option_map, true, IfOk, IsSomeAnd, OnOk, OnErr, Some, None};
ghost use Rattle.std.specs.Result.{IsErrOf};
ghost use Rattle.pi_base.specs.Counters.{NextFails, next_count};
ghost use Rattle.pi_base.specs.Outside.{Finds, Holds, IsFresh, Keeps, KeepsOthers, OthersStand, Raises, no_cause, read_causes, write_causes};
ghost use Rattle.pi_base.specs.MemStore.{content_in, content_of, view_of, fails_of, calls_of};

use crate::counts::StoreCounts;
use crate::fail_plan::FailPlan;
use crate::outside::{Store, StoreError};
use std::alloc::{AllocError, Global};
use std::collections::BTreeMap;

/// Contents by name in memory.
#[derive(Drop)]
pub struct MemStore {
    alloc: Global,
    files: BTreeMap<String, Vec<u8>>,
    plan: FailPlan,
    counts: StoreCounts,
}

impl MemStore {
    /// A store with no name in it, which fails the reads and writes whose numbers from 1, over
    /// both together, are in `fails`.
    pub fn new(alloc: Global, fails: &[u64]) -> Result<MemStore, AllocError>
        ensures empty { IfOk result (λ store. (name : List ℕ) → content_of store name ≡ None) }
        ensures fails { IfOk result (λ store. fails_of store ≡ fails.now) }
        ensures calls { IfOk result (λ store. calls_of store ≡ 0) }
        ensures fresh { IfOk result (λ store. IsFresh (view_of store)) }
    {
        Ok(MemStore {
            alloc,
            files: BTreeMap::new(alloc),
            plan: FailPlan::new(alloc, fails)?,
            counts: StoreCounts::new(),
        })
    }

    /// Makes `bytes` the content of `name`. This is no call of the store: it has no number,
    /// does not fail by the list, and raises no count.
    pub fn put(&mut self, alloc: Global, name: &str, bytes: &[u8]) -> Result<(), AllocError>
        ensures written { OnOk result (content_of self.new name.now ≡ Some bytes.now) }
        ensures others_stand { OthersStand name.now (content_of self.old) (content_of self.new) }
        ensures refused { OnErr result (content_of self.new ≡ content_of self.old) }
        ensures counts_stand { Raises no_cause (view_of self.old) (view_of self.new) }
        ensures fails_stand { fails_of self.new ≡ fails_of self.old }
        ensures calls_stand { calls_of self.new ≡ calls_of self.old }
    {
        set_content(&mut self.files, alloc, name, bytes)
    }

    /// The content of `name`.
    pub fn get(&self, name: &str) -> Option<&[u8]>
        ensures { option_map (λ bytes. bytes.now) result ≡ content_of self.now name.now }
    {
        content_of(&self.files, name)
    }
}

impl Store for MemStore {
    ghost view = { view_of };

    /// A call of the list is `Failed`; else a name that is not there is `Missing`; else a content
    /// longer than the limit is `TooLarge`; and else only want of memory refuses the content.
    fn read(&mut self, alloc: Global, name: &str, limit: usize) -> Result<Vec<u8>, StoreError>
        ensures keeps { Keeps (view_of self.old) (view_of self.new) }
        ensures raises { Raises (read_causes result) (view_of self.old) (view_of self.new) }
        ensures fits { IfOk result (λ found. length found.items ≤ limit) }
        ensures finds { Finds (content_of self.old name.now) limit result }

        ensures missing { IsErrOf result StoreError.Missing ↔ (¬ NextFails (fails_of self.old) (calls_of self.old) × (content_of self.old name.now ≡ None)) }
        ensures too_large { IsErrOf result StoreError.TooLarge ↔ (¬ NextFails (fails_of self.old) (calls_of self.old) × IsSomeAnd (content_of self.old name.now) (λ bytes. limit < length bytes)) }
        ensures failed { IsErrOf result StoreError.Failed ↔ NextFails (fails_of self.old) (calls_of self.old) }

        ensures list_stands { fails_of self.new ≡ fails_of self.old }
        ensures counts_call { calls_of self.new ≡ next_count (calls_of self.old) }
    {
        let result = if self.plan.next_fails() {
            Err(StoreError::Failed)
        } else {
            copy_content(&self.files, alloc, name, limit)
        };
        if let Err(error) = &result {
            self.counts.note_read(*error);
        }
        result
    }

    /// A call of the list is `Failed`, and else only want of memory refuses the write. After a
    /// refusal the name has what it had.
    fn write(&mut self, name: &str, bytes: &[u8]) -> Result<(), StoreError>
        ensures keeps_others { KeepsOthers name.now (view_of self.old) (view_of self.new) }
        ensures holds { OnOk result (Holds (view_of self.new) name.now bytes.now) }
        ensures raises { Raises (write_causes result) (view_of self.old) (view_of self.new) }
        ensures never_missing { result ≢ Err StoreError.Missing }
        ensures never_too_large { result ≢ Err StoreError.TooLarge }

        ensures refused { OnErr result (content_of self.new ≡ content_of self.old) }
        ensures failed { IsErrOf result StoreError.Failed ↔ NextFails (fails_of self.old) (calls_of self.old) }

        ensures list_stands { fails_of self.new ≡ fails_of self.old }
        ensures counts_call { calls_of self.new ≡ next_count (calls_of self.old) }
    {
        if self.plan.next_fails() {
            self.counts.note_write_fault();
            return Err(StoreError::Failed);
        }
        match set_content(&mut self.files, self.alloc, name, bytes) {
            Ok(()) => Ok(()),
            Err(_) => Err(StoreError::OutOfMemory),
        }
    }
}

/// The content of a name.
fn content_of<'a>(files: &'a BTreeMap<String, Vec<u8>>, name: &str) -> Option<&'a [u8]>
    ensures { option_map (λ bytes. bytes.now) result ≡ content_in files.now name.now }
{
    files.get(name).map(|bytes| bytes.as_slice())
}

/// A copy of the content of a name, if it is no longer than the limit.
fn copy_content(
    files: &BTreeMap<String, Vec<u8>>,
    alloc: Global,
    name: &str,
    limit: usize,
) -> Result<Vec<u8>, StoreError>
    ensures fits { IfOk result (λ found. length found.items ≤ limit) }
    ensures content { IfOk result (λ found. content_in files.now name.now ≡ Some found.items) }
    ensures missing { IsErrOf result StoreError.Missing ↔ (content_in files.now name.now ≡ None) }
    ensures too_large { IsErrOf result StoreError.TooLarge ↔ IsSomeAnd (content_in files.now name.now) (λ bytes. limit < length bytes) }
    ensures never_failed { result ≢ Err StoreError.Failed }
{
    let Some(bytes) = content_of(files, name) else {
        return Err(StoreError::Missing);
    };
    if bytes.len() > limit {
        return Err(StoreError::TooLarge);
    }
    match Vec::from_slice(alloc, bytes) {
        Ok(found) => Ok(found),
        Err(_) => Err(StoreError::OutOfMemory),
    }
}

/// Makes `bytes` the content of a name, in place of what it had.
fn set_content(
    files: &mut BTreeMap<String, Vec<u8>>,
    alloc: Global,
    name: &str,
    bytes: &[u8],
) -> Result<(), AllocError>
    ensures written { OnOk result (content_in files.new name.now ≡ Some bytes.now) }
    ensures others_stand { OthersStand name.now (content_in files.old) (content_in files.new) }
    ensures refused { OnErr result (content_in files.new ≡ content_in files.old) }
{
    let key = String::from_str(alloc, name)?;
    let value = Vec::from_slice(alloc, bytes)?;
    files.insert(key, value)?;
    Ok(())
}
