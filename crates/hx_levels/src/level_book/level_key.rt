//! The level key: the position of a level in a book.
ghost use Rattle.std.specs.Prelude.{◌≡◌, ◌<◌, ◌↔◌, IsTrue};
ghost use Rattle.std.proofs.Common.{rules};
ghost use Rattle.std.specs.Ordering.{as_partial_cmp, eq_by_cmp};
ghost use Rattle.std.specs.Cmp.{partial_equiv_from_equiv, partial_order_from_own_ties};
ghost use Rattle.std.specs.Cmp.Rules.{comparing};
ghost use Rattle.hx_levels.specs.LevelKeys.{LevelKey, level_key_cmp, level_key_number, level_key_of_number, side_number};

use std::cmp::Ordering;
use std::marker::Model;

// How many distances there are on a side of a stock.
const DISTANCES: u64 = 1 << 32;

// Times this number, the upper bits of distances a cent (100) apart are next to each other, and those of distances closer
// together, or of two sides, far apart: it is 61 / 100 of 2 ^ 64 and 1 / 4,096 of a hundredth more, and its lower half
// 2 ^ 32 over the golden ratio.
const SPREAD: u64 = 11_252_558_926_534_113_721;

/// A stock, a side and how far a price is from the best, in one number, so that two of them compare at once: the number
/// of the stock from bit 33 on, the side in bit 32, the distance below. Of one stock and side the better price comes first.
#[derive(Clone, Copy, Debug)]
pub struct LevelKey {
    number: u64,
}

impl Model for LevelKey {
    ghost use Rattle.hx_levels.specs.LevelKeys.{LevelKey, level_key_number, level_key_of_number};

    ghost Value = { LevelKey };

    ghost view = { λ r. level_key_of_number r.number };

    ghost inverse = { λ at. record { number = level_key_number at } };
}

impl LevelKey {
    /// The level key of a stock, a side and a distance.
    pub fn of(locate: u16, buy: bool, distance: u32) -> LevelKey
        ensures { result ≡ record { locate = locate; buy = buy; distance = distance } }
    {
        let side = if buy { 1 } else { 0 };
        LevelKey {
            number: (u64::from(locate) * 2 + side) * DISTANCES + u64::from(distance),
        }
    }

    /// Whether it is of the stock and the side of another.
    pub fn is_beside(self, other: LevelKey) -> bool
        ensures { IsTrue result ↔ ((self.locate ≡ other.locate) × (self.buy ≡ other.buy)) }
    {
        self.number / DISTANCES == other.number / DISTANCES
    }

    /// The number of its stock's side: of each stock the sells, then the buys.
    pub fn side_number(self) -> usize
        ensures number { result ≡ side_number self }
        ensures small { result < 4294967296 }
    {
        (self.number / DISTANCES) as usize
    }

    /// The level key as one number: of a stock and side the better price has the smaller one.
    pub fn number(self) -> u64
        ensures number { result ≡ level_key_number self }
        ensures level_key { level_key_of_number result ≡ self }
    {
        self.number
    }

    /// How far its price is from the best.
    pub fn distance(self) -> u32
        ensures { result ≡ self.distance }
    {
        (self.number % DISTANCES) as u32
    }

    /// The number of its hint, of 4,096: level keys near to each other have different ones.
    pub fn hint(self) -> usize
        ensures { result < 4096 }
    {
        (self.number.wrapping_mul(SPREAD) >> 52) as usize
    }

    /// The level key of the same stock and side at another distance.
    pub fn at(self, distance: u32) -> LevelKey
        ensures { result ≡ record self { distance = distance } }
    {
        LevelKey {
            number: self.number / DISTANCES * DISTANCES + u64::from(distance),
        }
    }
}

impl PartialEq for LevelKey {
    ghost eq = { eq_by_cmp level_key_cmp };

    ghost laws = { partial_equiv_from_equiv (Prim.search (comparing, rules)) };

    fn eq(&self, other: &LevelKey) -> bool {
        self.number == other.number
    }
}

impl Eq for LevelKey {
    ghost laws = { Prim.search (comparing, rules) };
}

impl Ord for LevelKey {
    ghost cmp = { level_key_cmp };

    ghost total = { Prim.search (comparing, rules) };

    ghost matches_partial_cmp = { Prim.search (comparing, rules) };

    ghost matches_eq = { Prim.search (comparing, rules) };

    // In this order, which a search over many keys is compiled best with.
    fn cmp(&self, other: &LevelKey) -> Ordering {
        if self.number > other.number {
            Ordering::Greater
        } else if self.number == other.number {
            Ordering::Equal
        } else {
            Ordering::Less
        }
    }
}

impl PartialOrd for LevelKey {
    ghost partial_cmp = { as_partial_cmp level_key_cmp };

    ghost laws = { partial_order_from_own_ties (Prim.search (comparing, rules))
        (Prim.search (comparing, rules)) };

    fn partial_cmp(&self, other: &LevelKey) -> Option<Ordering> {
        Some(self.cmp(other))
    }
}
