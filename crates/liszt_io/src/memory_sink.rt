ghost use Rattle.std.specs.Prelude.{◌≡◌, ◌<◌, ◌≤◌, ◌-◌, length, min, IfOk, is_ok, vec_capacity, Some};
ghost use Rattle.liszt_io.specs.Causes.{HasCause};
ghost use Rattle.liszt_io.specs.Sinks.{Takes};

use crate::held_file::CallList;
use crate::outside::{Failed, Sink};
use crate::script::Script;
use liszt_base::NoMemory;
use std::alloc::Global;

/// A sink in memory that fails at given calls. It takes its memory when it is made, and none later.
#[derive(Debug, Drop)]
pub struct MemorySink {
    bytes: Vec<u8>,
    script: Script,
    cut: usize,
    is_flushed: bool,
    faults: u64,
    ghost moves: { 0 < script.step },
    ghost within: { length bytes.items ≤ cut },
    ghost room: { cut ≤ vec_capacity bytes },
}

impl MemorySink {
    ghost use Rattle.liszt_io.specs.InMemory.{IsNewSink, output_of};

    /// An empty sink that takes at most `step` bytes a call and `cut` bytes in all. Every write of a
    /// nonempty piece after them fails, and the calls whose numbers, from 1 over both kinds, are in `fails`.
    pub fn new(
        alloc: Global,
        step: usize,
        cut: usize,
        fails: CallList,
    ) -> Result<MemorySink, NoMemory>
        requires { 0 < step }
        ensures { IfOk result (IsNewSink step cut fails) }
    {
        let bytes = Vec::with_capacity(alloc, cut)?;
        Ok(MemorySink {
            bytes,
            script: Script {
                step,
                fails,
                calls: 0,
            },
            cut,
            is_flushed: true,
            faults: 0,
        })
    }

    /// The bytes written.
    pub fn bytes(&self) -> &[u8]
        ensures { result.now ≡ output_of self.now }
    {
        self.bytes.as_slice()
    }
}

impl Sink for MemorySink {
    ghost use Rattle.std.specs.Prelude.{◌≡◌, IfOk, is_ok, Some};
    ghost use Rattle.liszt_io.specs.Causes.{HasCause, faults_after};
    ghost use Rattle.liszt_io.specs.Sinks.{Takes, flushed_by_write, flushed_by_flush};
    ghost use Rattle.liszt_io.specs.InMemory.{output_of, writes_next, next_count, flushes_next, IsSinkLater};

    ghost output = { λ s. Some (output_of s) };

    ghost is_flushed = { λ s. s.is_flushed };

    ghost faults = { λ s. s.faults };

    fn write(&mut self, piece: &[u8]) -> Result<usize, Failed>
        ensures cause { HasCause self.old.faults self.new.faults result }
        ensures takes { Takes (Some (output_of self.old)) (Some (output_of self.new)) piece.now
            result }
        ensures flushed { self.new.is_flushed ≡ flushed_by_write self.old.is_flushed result }
        ensures exact { is_ok result ≡ writes_next self.old piece.now }
        ensures counts { self.new.faults ≡ faults_after self.old.faults result }
        ensures count { IfOk result (λ count. count ≡ next_count self.old piece.now) }
        ensures later { IsSinkLater self.old self.new }
    {
        let fails = self.script.count_call();
        let left = self.cut - self.bytes.len();
        if piece.is_empty() {
            return Ok(0);
        }
        if fails || left == 0 {
            self.faults = self.faults.saturating_add(1);
            return Err(Failed);
        }
        let count = piece.len().min(left).min(self.script.step);
        self.is_flushed = false;
        match self.bytes.extend_from_slice(&piece[..count]) {
            Ok(()) => Ok(count),
            Err(_) => unreachable!(),
        }
    }

    fn flush(&mut self) -> Result<(), Failed>
        ensures cause { HasCause self.old.faults self.new.faults result }
        ensures takes { Some (output_of self.new) ≡ Some (output_of self.old) }
        ensures flushed { self.new.is_flushed ≡ flushed_by_flush self.old.is_flushed result }
        ensures exact { is_ok result ≡ flushes_next self.old }
        ensures counts { self.new.faults ≡ faults_after self.old.faults result }
        ensures later { IsSinkLater self.old self.new }
    {
        if self.script.count_call() {
            self.faults = self.faults.saturating_add(1);
            return Err(Failed);
        }
        self.is_flushed = true;
        Ok(())
    }
}
