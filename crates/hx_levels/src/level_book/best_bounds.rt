//! How near to the best price the levels of each stock and side begin.
ghost use Rattle.std.specs.Prelude.{◌≡◌, ◌≤◌, ◌<◌, ◌↔◌, ℕ, List, [], length, slice_set, OnOk, OnErr, IsTrue};
ghost use Rattle.hx_levels.specs.LevelKeys.{LevelKey, side_number};
ghost use Rattle.hx_levels.specs.Bests.{bound_of};

use crate::level_book::level_key::LevelKey;
use hx_units::NoMemory;
use std::alloc::Global;
use std::marker::Model;

// Beyond each price: there is no level.
pub const NO_DISTANCE: u32 = u32::MAX;

/// For each side of each stock a distance that none of its levels is better than.
#[derive(Drop)]
pub struct BestBounds {
    distances: Vec<u32>,
}

impl Model for BestBounds {
    ghost use Rattle.std.specs.Prelude.{ℕ, List};

    ghost Value = { List ℕ };

    ghost view = { λ b. b.distances.items };
}

impl BestBounds {
    /// Without levels.
    pub fn new(alloc: Global) -> Self
        ensures { result ≡ [] }
    {
        BestBounds {
            distances: Vec::new(alloc),
        }
    }

    /// The distance that no level of the level key's stock and side is better than.
    pub fn bound(&self, at: LevelKey) -> u32
        ensures { result ≡ bound_of self.now at }
    {
        match self.distances.get(at.side_number()) {
            Some(distance) => *distance,
            None => NO_DISTANCE,
        }
    }

    /// Takes note of a level that is to be at the level key.
    pub fn include(&mut self, at: LevelKey) -> Result<(), NoMemory>
        ensures ok { OnOk result (bound_of self.new at ≤ at.distance) }
        ensures lower { (q : LevelKey) → bound_of self.new q ≤ bound_of self.old q }
        ensures err { OnErr result (self.new ≡ self.old) }
    {
        let side = at.side_number();
        if self.distances.len() <= side {
            self.distances.resize(side + 1, NO_DISTANCE)?;
        }
        if at.distance() < self.distances[side] {
            self.distances[side] = at.distance();
        }
        Ok(())
    }

    /// Whether the level key is at the distance that is stored for its stock and side.
    pub fn is_at_bound(&self, at: LevelKey) -> bool
        ensures { IsTrue result ↔ ((side_number at < length self.now)
            × (bound_of self.now at ≡ at.distance)) }
    {
        match self.distances.get(at.side_number()) {
            Some(distance) => *distance == at.distance(),
            None => false,
        }
    }

    /// Stores another distance for the level key's stock and side, which have one.
    pub fn renew(&mut self, at: LevelKey, distance: u32)
        requires { side_number at < length self.old }
        ensures { self.new ≡ slice_set self.old (side_number at) distance }
    {
        self.distances[at.side_number()] = distance;
    }
}
