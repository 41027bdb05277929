ghost use Rattle.std.specs.Prelude.{◌≡◌};

use crate::held_file::CallList;

/// How a shelf or a sink in memory behaves.
#[derive(Debug, Drop)]
pub struct Script {
    /// The greatest number of bytes that a call moves.
    pub step: usize,
    /// The numbers of the calls that fail, from 1.
    pub fails: CallList,
    /// The number of calls so far.
    pub calls: u64,
}

impl Script {
    ghost use Rattle.liszt_io.specs.Scripts.{fails_next, IsCallLater};

    /// Counts a call. The result is whether it fails.
    pub fn count_call(&mut self) -> bool
        ensures fails { result ≡ fails_next self.old }
        ensures later { IsCallLater self.old self.new }
    {
        self.calls = self.calls.saturating_add(1);
        self.fails.as_slice().contains(&self.calls)
    }
}
