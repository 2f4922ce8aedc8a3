//! How names are hashed.
ghost use Rattle.std.specs.Prelude.{◌≡◌};
ghost use Rattle.hx_tokens.specs.Seeds.{hasher_of, beside, written, finished};

use std::hash::{BuildHasher, DefaultHasher, FoldHasher, Hasher, RandomState};

/// The seed of the hash table of used tokens. Members choose their tokens: under the fixed seed, which anybody can read
/// here, a member that computes tokens that collide slows everybody down. No answer depends on the seed.
#[derive(Clone, Copy, Debug)]
pub enum Seed {
    /// A fast hash that is the same in each run: for tapes, whose orders are there already.
    Fixed,
    /// SipHash under keys that were drawn at random, and that nobody knows: for an exchange that runs.
    Drawn(RandomState),
}

/// The hash of a name, as far as it is computed: of all but its last digits, and these.
#[derive(Clone, Copy)]
pub enum NameHasher {
    /// Under the fixed seed.
    Folding(FoldHasher, u8),
    /// Under keys.
    Keyed(DefaultHasher, u8),
}

// The hash of a name by that of all but its last digits. Its lower bits say where the table looks first: names that
// differ in their last digits alone lie side by side there, eight together, so that tokens that count up are in the
// cache. Its upper eight bits distinguish the eight. The last digits are one of 256, so that names chosen by hand lie
// no closer.
#[inline(always)]
fn beside(hash: u64, last: u8) -> u64
    ensures { result ≡ beside hash last }
{
    let last = u64::from(last);
    let upper = (hash / 0x1_0000_0000 + last * 32) % 0x100;
    let lower = (hash % 0x100_0000 + last / 8) % 0x100_0000;
    upper * 0x100_0000 + lower
}

impl Hasher for NameHasher {
    ghost write = { written };

    ghost finish = { finished };

    #[inline(always)]
    fn finish(&self) -> u64 {
        match self {
            NameHasher::Folding(hasher, last) => beside(hasher.finish(), *last),
            NameHasher::Keyed(hasher, last) => beside(hasher.finish(), *last),
        }
    }

    // One byte is the last digits.
    #[inline(always)]
    fn write(&mut self, bytes: &[u8]) {
        match self {
            NameHasher::Folding(hasher, last) => {
                if bytes.len() == 1 {
                    *last = bytes[0];
                } else {
                    hasher.write(bytes);
                }
            }
            NameHasher::Keyed(hasher, last) => {
                if bytes.len() == 1 {
                    *last = bytes[0];
                } else {
                    hasher.write(bytes);
                }
            }
        }
    }
}

impl BuildHasher for Seed {
    type Hasher = NameHasher;

    ghost build_hasher = { hasher_of };

    #[inline(always)]
    fn build_hasher(&self) -> NameHasher {
        match self {
            Seed::Fixed => NameHasher::Folding(FoldHasher::default(), 0),
            Seed::Drawn(keys) => NameHasher::Keyed(keys.build_hasher(), 0),
        }
    }
}
