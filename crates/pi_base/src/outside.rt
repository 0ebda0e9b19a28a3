// What the system reads from and writes to: a store of contents by name, and a sink of bytes.
// Their contracts say what each answer means and which count a refusal raises.
// docs/outside.md states the rules.
ghost use Rattle.std.specs.Prelude.{◌≡◌, ◌≢◌, ◌<◌, ◌≤◌, length, IsTrue, IfOk, OnOk};
ghost use Rattle.pi_base.specs.Outside.{Finds, Holds, Keeps, KeepsOthers, Raises, TakesFront, read_causes, write_causes};
ghost use Rattle.pi_base.specs.Views.{SinkView, StoreView};

use std::alloc::Global;

/// Why a store refused a call.
#[derive(Clone, Copy, Debug, PartialEq, Eq)]
pub enum StoreError {
    /// There was no memory for the answer.
    OutOfMemory,
    /// The name is not in the store.
    Missing,
    /// The content is longer than the caller's limit.
    TooLarge,
    /// Any other fault of the store.
    Failed,
}

/// Why a sink refused a call.
#[derive(Clone, Copy, Debug, PartialEq, Eq)]
pub enum SinkError {
    /// The sink did not take the piece.
    Failed,
}

/// Contents by name, which calls read and replace whole.
///
/// What contracts see of a store is its view. A store that is *shown* tells its contents; those
/// of another, as files of the system, mean nothing. A store is *faithful* where a write that
/// answered `Ok` is what the next read finds. Four counts say which refusals came. A count never
/// falls, and stands once it is at the last value of a `u64`.
pub trait Store {
    ghost view: { Self → StoreView };

    /// The whole content of `name`, if it has at most `limit` bytes. Its bytes are on `alloc`.
    fn read(&mut self, alloc: Global, name: &str, limit: usize) -> Result<Vec<u8>, StoreError>
        ensures keeps { Keeps (view self.old) (view self.new) }
        // each refusal raises the count of its cause, and no other
        ensures raises { Raises (read_causes result) (view self.old) (view self.new) }
        ensures fits { IfOk result (λ found. length found.items ≤ limit) }
        ensures finds { IsTrue (view self.old).shown → Finds ((view self.old).contents name.now) limit result };

    /// Makes `bytes` the content of `name`, which need not be there before. After a refusal, and
    /// after any write into a store that is not faithful, the content of `name` is open.
    fn write(&mut self, name: &str, bytes: &[u8]) -> Result<(), StoreError>
        ensures keeps_others { KeepsOthers name.now (view self.old) (view self.new) }
        ensures holds { OnOk result (Holds (view self.new) name.now bytes.now) }
        // a refusal raises the count of write faults unless memory ran out, and no other
        ensures raises { Raises (write_causes result) (view self.old) (view self.new) }
        ensures never_missing { result ≢ Err StoreError.Missing }
        ensures never_too_large { result ≢ Err StoreError.TooLarge };
}

/// Takes bytes, a piece at a time.
///
/// A sink that tells its bytes shows contracts all that it took so far; another, as the system's
/// standard output, shows none, and no call changes that. Its count of faults never falls, and
/// stands once it is at the last value of a `u64`.
pub trait Sink {
    ghost view: { Self → SinkView };

    /// Takes a front of `piece`, and says how many bytes that is.
    fn write(&mut self, piece: &[u8]) -> Result<usize, SinkError>
        ensures within { IfOk result (λ taken. taken ≤ length piece.now) }
        ensures progress { 0 < length piece.now → IfOk result (λ taken. 0 < taken) }
        ensures takes_front { TakesFront piece.now result (view self.old) (view self.new) };
}
