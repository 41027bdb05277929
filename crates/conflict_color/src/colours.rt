ghost use Rattle.std.specs.Prelude.{◌≡◌, ◌<◌, Some, length, slice_get};
ghost use Rattle.conflict_color.specs.Colours.{number_of_colours, positions_of};

use liszt_base::PlainLists;
use std::marker::Model;

/// A colour for each iteration, from 0, and the iterations of each colour. Contracts see the list of colours.
#[derive(Debug, Drop)]
pub struct Colours {
    pub(crate) colours: Vec<u32>,
    pub(crate) batches: PlainLists<u32>,
}

impl Model for Colours {
    ghost use Rattle.std.specs.Prelude.{◌≡◌, ◌<◌, ◌^◌, List, ℕ, map};
    ghost use Rattle.std.specs.List.{range_with_len};
    ghost use Rattle.conflict_color.specs.Colours.{number_of_colours, positions_of};

    ghost Value = { List ℕ };

    ghost view = { λ c. c.colours.items };

    ghost invariant = { λ c. (number_of_colours c.colours.items < 2 ^ 32)
        × (c.batches ≡ map (λ k. positions_of k c.colours.items)
        (range_with_len 0 (number_of_colours c.colours.items))) };
}

impl Colours {
    /// The colour of an iteration, by its index below their number.
    pub fn colour_of(&self, i: u32) -> u32
        requires { i < length self.now }
        ensures { slice_get self.now i ≡ Some result }
    {
        self.colours[i as usize]
    }

    /// The number of colours: the least number above all of them.
    pub fn count(&self) -> u32
        ensures { result ≡ number_of_colours self.now }
    {
        self.batches.len() as u32
    }

    /// The iterations of a colour below the number of colours, ascending.
    pub fn batch(&self, k: u32) -> &[u32]
        requires { k < number_of_colours self.now }
        ensures { result.now ≡ positions_of k self.now }
    {
        self.batches.of(k as usize)
    }
}
