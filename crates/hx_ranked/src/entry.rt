//! An entry.
ghost use Rattle.std.specs.Prelude.{◌≡◌};
ghost use Rattle.hx_ranked.specs.Ranked.{is_within};

/// An order in the index: its rank, its key in the book, its least execution (the fewest shares that it accepts to
/// trade at once) and its open shares. Both are numbers of shares.
#[derive(Clone, Copy, Debug, PartialEq, Eq)]
pub struct Entry {
    pub rank: u128,
    pub key: usize,
    pub least: u32,
    pub shares: u32,
}

impl Entry {
    // Whether it ranks from `from` to `last`, its least execution is no more than `left`, and it has `minimum` shares or more.
    pub fn is_within(&self, from: u128, last: u128, left: u32, minimum: u32) -> bool
        ensures { result ≡ is_within from last left minimum self.now }
    {
        from <= self.rank && self.rank <= last && self.least <= left && minimum <= self.shares
    }
}
