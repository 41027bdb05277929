ghost use Rattle.std.specs.Prelude.{◌≡◌, ℕ, ◌<◌, length, All};
ghost use Rattle.batch_core.specs.Machine.{Apart, HasSizesOf, IsFinished, InRange, Reads, answer, machine_at_start, register_after, run, sequential_result, step, value_at, word, words_after};

use crate::act_lists::{ActLists, ActQueue};
use crate::acts::{Act, Stepped};
use liszt_base::{NumbersList, fold_op};
use std::marker::Model;

/// Words, and workers with the acts that they have still to do. Contracts see the machine.
#[derive(Drop)]
pub struct Core {
    words: NumbersList,
    workers: Vec<ActQueue>,
}

impl Model for Core {
    ghost use Rattle.batch_core.specs.Machine.{Machine, InRange};

    ghost Value = { Machine };

    ghost view = { λ c. record { words = c.words; workers = c.workers.items } };

    ghost invariant = { λ c. InRange record { words = c.words; workers = c.workers.items } };
}

impl Core {
    /// A machine whose workers have done no act, with register 0. Each word of an act is in range.
    pub fn new(words: NumbersList, acts: ActLists) -> Core
        requires { InRange (machine_at_start words acts) }
        ensures { result ≡ machine_at_start words acts }
    {
        let ActLists { queues } = acts;
        Core {
            words,
            workers: queues,
        }
    }

    /// One turn of a worker, below their number: its first remaining act, or nothing where none remains.
    pub fn step(&mut self, worker: u32) -> Stepped
        requires { worker < length self.old.workers }
        ensures machine { self.new ≡ step self.old worker }
        ensures answer { result ≡ answer self.old worker }
        ensures sizes { HasSizesOf self.old self.new }
    {
        let register = self.workers[worker as usize].register();
        let Some(act) = self.workers[worker as usize].next_act() else {
            return Stepped::Idle;
        };
        let after = perform(&mut self.words, register, act);
        self.workers[worker as usize].advance(after);
        Stepped::Acted
    }

    /// Turns of these workers, each below their number, in this order.
    pub fn run(&mut self, turns: &[u32])
        requires { All (λ worker. worker < length self.old.workers) turns.now }
        ensures machine { self.new ≡ run self.old turns.now }
        ensures sizes { HasSizesOf self.old self.new }
        ensures apart { Apart self.old → Apart self.new }
        ensures result { Apart self.old
            → sequential_result self.new ≡ sequential_result self.old }
        ensures reads { Apart self.old → (w : ℕ) → Reads self.old w
            → value_at self.new.words w ≡ value_at self.old.words w }
        ensures finished { Apart self.old → IsFinished self.new
            → self.new.words ≡ sequential_result self.old }
    {
        self.take_turns(turns);
    }

    fn take_turns(&mut self, turns: &[u32])
        requires { All (λ worker. worker < length self.old.workers) turns.now }
        ensures machine { self.new ≡ run self.old turns.now }
        ensures sizes { HasSizesOf self.old self.new }
    {
        for worker in turns {
            self.step(*worker);
        }
    }

    /// The value of a word, by its number below that of the words.
    pub fn word(&self, w: u32) -> i64
        requires { w < length self.now.words }
        ensures { result ≡ value_at self.now.words w }
    {
        self.words.as_slice()[w as usize]
    }
}

// Does an act, and gives the register after it.
fn perform(words: &mut NumbersList, register: i64, act: Act) -> i64
    requires { word act < length words.old }
    ensures words { words.new ≡ words_after words.old register act }
    ensures register { result ≡ register_after words.old register act }
{
    match act {
        Act::Read(_) => register,
        Act::Load(word) => words.as_slice()[word as usize],
        Act::Put { word, value } => {
            words.set(word as usize, value);
            register
        }
        Act::Fold { word, op, value } => {
            words.set(word as usize, fold_op(op, register, value));
            register
        }
    }
}
