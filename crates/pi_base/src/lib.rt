// The outside of the system: what it reads from and writes to, as traits whose contracts say what may go wrong, with two
// forms in memory, adapters to the system, and the program's statuses. docs/outside.md states the rules.
//
// Proved: the traits `Store` and `Sink` state every rule; `put_all` is exact in both outcomes; the store and the sink in
// memory fail exactly the calls that they were told to fail; `Status::code` is the table of docs/commands.md; the adapters
// over files and streams keep the traits' clauses. What the system does is only tested.
#![tactic(auto)]

mod counts;
mod fail_plan;
pub mod file_store;
pub mod mem_sink;
pub mod mem_store;
pub mod outside;
pub mod put;
pub mod status;
pub mod stream_sink;
