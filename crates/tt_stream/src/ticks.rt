//! A count that only contracts see.

ghost use Rattle.std.specs.Prelude.{◌≡◌, ◌+◌};

use std::marker::Model;
use std::mem;
use std::snapshot::Snapshot;

/// The ticks so far, each after those before it.
#[derive(Drop)]
enum Chain {
    /// No tick.
    Start,
    /// One tick more.
    After(Snapshot<Chain>),
}

/// A count of ticks. Only contracts see how many there were: at run time it has no bytes.
#[derive(Drop)]
pub struct Ticks {
    /// The ticks so far.
    chain: Snapshot<Chain>,
}

// A count has no bytes.
const _: () = prove!(size_of::<Ticks>() == 0);

impl Model for Ticks {
    ghost use Rattle.std.specs.Prelude.{ℕ};

    ghost Value = { ℕ };

    ghost use Rattle.tt_stream.specs.Representation.Chains.{ticks_in};

    ghost view = { λ t. ticks_in t.chain.value };
}

impl Ticks {
    /// Returns the count of no ticks.
    pub fn none() -> Self
        ensures { result ≡ 0 }
    {
        Ticks {
            chain: Snapshot::of(&Chain::Start),
        }
    }

    /// Counts a tick.
    pub fn tick(&mut self)
        ensures { self.new ≡ self.old + 1 }
    {
        let before = mem::replace(&mut self.chain, Snapshot::of(&Chain::Start));
        self.chain = Snapshot::of(&Chain::After(before));
    }
}
