ghost use Rattle.std.specs.Prelude.{◌≡◌, ◌≢◌, [], ◌∷◌, ◌++◌, OnOk, OnErr, IfOk, ◌==◌, length};
ghost use Rattle.batch_core.specs.Machine.{worker_at_start};
ghost use Rattle.batch_core.specs.Internal.Steps.{next_act, worker_after};

use crate::acts::Act;
use liszt_base::NoMemory;
use std::alloc::Global;
use std::marker::Model;

/// A worker's acts, the number of those that it has done, and its register. Contracts see the register and the remaining acts.
#[derive(Drop)]
pub(crate) struct ActQueue {
    acts: Vec<Act>,
    done: usize,
    register: i64,
}

impl Model for ActQueue {
    ghost use Rattle.std.specs.Prelude.{◌≤◌, length, drop};
    ghost use Rattle.batch_core.specs.Machine.{Worker};

    ghost Value = { Worker };

    ghost view = { λ q. record { register = q.register; acts = drop q.done q.acts.items } };

    ghost invariant = { λ q. q.done ≤ length q.acts.items };
}

impl ActQueue {
    // A worker with copies of these acts and register 0.
    fn of(alloc: Global, list: &[Act]) -> Result<ActQueue, NoMemory>
        ensures { IfOk result (λ queue. queue ≡ worker_at_start list.now) }
    {
        let mut acts = Vec::new(alloc);
        acts.extend_from_slice(list)?;
        Ok(ActQueue {
            acts,
            done: 0,
            register: 0,
        })
    }

    // The first of the remaining acts.
    pub(crate) fn next_act(&self) -> Option<Act>
        ensures { result ≡ next_act self.now.acts }
    {
        if self.done < self.acts.len() {
            Some(self.acts[self.done])
        } else {
            None
        }
    }

    pub(crate) fn register(&self) -> i64
        ensures { result ≡ self.now.register }
    {
        self.register
    }

    // Removes the first of the remaining acts, and sets the register.
    pub(crate) fn advance(&mut self, register: i64)
        requires { self.old.acts ≢ [] }
        ensures { self.new ≡ worker_after register self.old.acts }
    {
        self.done += 1;
        self.register = register;
    }
}

/// A list of acts for each worker. Contracts see the list of their lists.
#[derive(Drop)]
pub struct ActLists {
    pub(crate) queues: Vec<ActQueue>,
}

impl Model for ActLists {
    ghost use Rattle.std.specs.Prelude.{◌≡◌, List, map};
    ghost use Rattle.batch_core.specs.declared.acts.Act.{Act};
    ghost use Rattle.batch_core.specs.Machine.{worker_at_start};
    ghost use Rattle.batch_core.specs.Internal.Steps.{acts_of};

    ghost Value = { List (List Act) };

    ghost view = { λ a. map acts_of a.queues.items };

    ghost invariant = { λ a. map worker_at_start (map acts_of a.queues.items) ≡ a.queues.items };
}

impl ActLists {
    /// No workers.
    pub fn new(alloc: Global) -> Self
        ensures { result ≡ [] }
    {
        ActLists {
            queues: Vec::new(alloc),
        }
    }

    /// Adds a worker with copies of these acts at the end.
    pub fn push(&mut self, alloc: Global, acts: &[Act]) -> Result<(), NoMemory>
        ensures ok { OnOk result (self.new ≡ self.old ++ acts.now ∷ []) }
        ensures err { OnErr result (self.new ≡ self.old) }
    {
        let queue = ActQueue::of(alloc, acts)?;
        self.queues.push(queue)?;
        Ok(())
    }

    /// The number of workers.
    pub fn len(&self) -> usize
        ensures { result ≡ length self.now }
    {
        self.queues.len()
    }

    /// Whether there is no worker.
    pub fn is_empty(&self) -> bool
        ensures { result ≡ (length self.now == 0) }
    {
        self.queues.is_empty()
    }
}
