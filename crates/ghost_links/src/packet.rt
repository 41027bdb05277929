ghost use Rattle.std.specs.Prelude.{◌≡◌, ◌<◌, ◌≤◌, [], IfOk, Some, length, set, slice_get};
ghost use Rattle.ghost_links.specs.Packets.{resized_words};

use liszt_base::NoMemory;
use std::alloc::Global;
use std::marker::Model;

/// A list of words of at most a fixed number. Contracts see the list and the number.
#[derive(Drop)]
pub struct Packet {
    buffer: Vec<u64>,
    used: usize,
}

impl Model for Packet {
    ghost use Rattle.std.specs.Prelude.{◌≤◌, length, take};
    ghost use Rattle.ghost_links.specs.Packets.{PacketWords};

    ghost Value = { PacketWords };

    ghost view = { λ p. record { size = length p.buffer.items; words = take p.used p.buffer.items } };

    ghost invariant = { λ p. p.used ≤ length p.buffer.items };
}

impl Packet {
    /// A packet of no words, which may have `size`.
    pub fn make(alloc: Global, size: u32) -> Result<Packet, NoMemory>
        ensures { IfOk result (λ p. p ≡ record { size = size; words = [] }) }
    {
        Ok(Packet {
            buffer: vec![in alloc; 0u64; size as usize]?,
            used: 0,
        })
    }

    /// The number of words.
    pub fn used(&self) -> usize
        ensures { result ≡ length self.now.words }
    {
        self.used
    }

    /// Cuts the list to `n` words, or fills it up with 0.
    pub fn set_used(&mut self, n: usize)
        requires { n ≤ self.old.size }
        ensures { self.new ≡ record self.old { words = resized_words n self.old.words } }
    {
        if self.used < n {
            self.buffer.as_mut_slice()[self.used..n].fill(0);
        }
        self.used = n;
    }

    /// A word by its place, from 0.
    pub fn get(&self, i: usize) -> u64
        requires { i < length self.now.words }
        ensures { slice_get self.now.words i ≡ Some result }
    {
        self.buffer[i]
    }

    /// Replaces the word at a place.
    pub fn set(&mut self, i: usize, v: u64)
        requires { i < length self.old.words }
        ensures { self.new ≡ record self.old { words = set self.old.words i v } }
    {
        self.buffer[i] = v;
    }
}
