//! A list of entries in the order of their ranks.
ghost use Rattle.std.specs.Prelude.{◌≡◌, ◌<◌, ◌≤◌, length, take, drop, min, max, vec_capacity, vec_len};
ghost use Rattle.std.specs.List.{find};
ghost use Rattle.hx_ranked.specs.Ranked.{Every, IsRising, has_rank, inserted, without, renewed, first_rank, smallest_least, most_shares, first_within_of, is_from};

use crate::entry::Entry;

/// The rank of the first entry, or 0.
pub fn first_rank(entries: &[Entry]) -> u128
    ensures { result ≡ first_rank entries.now }
{
    match entries.first() {
        Some(entry) => entry.rank,
        None => 0,
    }
}

/// The smallest of the least executions, or the largest number if there is no entry.
pub fn smallest_least(entries: &[Entry]) -> u32
    ensures { result ≡ smallest_least entries.now }
{
    let mut least = u32::MAX;
    for entry in entries {
        least = least.min(entry.least);
    }
    least
}

/// The most shares of an entry, or 0.
pub fn most_shares(entries: &[Entry]) -> u32
    ensures { result ≡ most_shares entries.now }
{
    let mut most = 0;
    for entry in entries {
        most = most.max(entry.shares);
    }
    most
}

// The smallest of the least executions, none of which is below the given bound. An entry with that value ends the
// search.
fn smallest_from(entries: &[Entry], floor: u32) -> u32
    requires { floor ≤ smallest_least entries.now }
    ensures { result ≡ smallest_least entries.now }
{
    let mut least = u32::MAX;
    for entry in entries {
        if entry.least == floor {
            return floor;
        }
        least = least.min(entry.least);
    }
    least
}

// The most shares of an entry, none of which has more than a ceiling. An entry at the ceiling ends the search.
fn most_up_to(entries: &[Entry], ceiling: u32) -> u32
    requires { most_shares entries.now ≤ ceiling }
    ensures { result ≡ most_shares entries.now }
{
    let mut most = 0;
    for entry in entries {
        if entry.shares == ceiling {
            return ceiling;
        }
        most = most.max(entry.shares);
    }
    most
}

/// The smallest of the least executions after one of them, or none, was `old` and is `new`, from the smallest before. It
/// reads the entries only if that one may have been the smallest, and up to the next one that is as small.
pub fn smallest_after(entries: &[Entry], before: u32, old: u32, new: u32) -> u32
    requires changed { min new before ≡ min old (smallest_least entries.now) }
    requires same { old ≡ new → before ≡ smallest_least entries.now }
    ensures { result ≡ smallest_least entries.now }
{
    if old == new {
        return before;
    }
    let smallest = before.min(new);
    if smallest < old {
        return smallest;
    }
    smallest_from(entries, smallest)
}

/// The most shares of an entry after those of one, or of none, were `old` and are `new`, from the most before. It reads
/// the entries only if that one may have had the most, and up to the next one that has the same shares.
pub fn most_after(entries: &[Entry], before: u32, old: u32, new: u32) -> u32
    requires changed { max new before ≡ max old (most_shares entries.now) }
    requires same { old ≡ new → before ≡ most_shares entries.now }
    ensures { result ≡ most_shares entries.now }
{
    if old == new {
        return before;
    }
    let most = before.max(new);
    if most > old {
        return most;
    }
    most_up_to(entries, most)
}

/// The index of the first entry that does not rank before a rank, by binary search.
pub fn lower_bound(entries: &[Entry], rank: u128) -> usize
    requires { IsRising entries.now }
    ensures inside { result ≤ length entries.now }
    ensures before { Every (λ e. e.rank < rank) (take result entries.now) }
    ensures after { Every (λ e. rank ≤ e.rank) (drop result entries.now) }
{
    let mut low = 0;
    let mut high = entries.len();
    while low < high {
        let middle = low + (high - low) / 2;
        if entries[middle].rank < rank {
            low = middle + 1;
        } else {
            high = middle;
        }
    }
    low
}

/// The entry of a rank, if there is one.
pub fn get(entries: &[Entry], rank: u128) -> Option<Entry>
    requires { IsRising entries.now }
    ensures { result ≡ find (has_rank rank) entries.now }
{
    let at = lower_bound(entries, rank);
    if at < entries.len() && entries[at].rank == rank {
        return Some(entries[at]);
    }
    None
}

/// The first entry from a rank to another that can trade `left` shares at most and `minimum` at least.
pub fn first_within(
    entries: &[Entry],
    from: u128,
    last: u128,
    left: u32,
    minimum: u32,
) -> Option<Entry>
    ensures { result ≡ first_within_of from last left minimum entries.now }
{
    entries
        .iter()
        .copied()
        .find(|entry| entry.is_within(from, last, left, minimum))
}

/// The first entry that has a rank or a later one.
pub fn first_from(entries: &[Entry], rank: u128) -> Option<Entry>
    ensures { result ≡ find (is_from rank) entries.now }
{
    entries.iter().copied().find(|entry| rank <= entry.rank)
}

/// Inserts an entry at its rank. There must be capacity for it.
pub fn insert(entries: &mut Vec<Entry>, entry: Entry)
    requires sorted { IsRising entries.old.items }
    requires room { vec_len entries.old < vec_capacity entries.old }
    ensures items { entries.new.items ≡ inserted entry entries.old.items }
    ensures capacity { vec_capacity entries.old ≤ vec_capacity entries.new }
{
    let at = lower_bound(entries, entry.rank);
    let _put = entries.insert(at, entry);
}

/// Removes the entry of a rank, if there is one.
pub fn remove(entries: &mut Vec<Entry>, rank: u128) -> Option<Entry>
    requires { IsRising entries.old.items }
    ensures found { result ≡ find (has_rank rank) entries.old.items }
    ensures items { entries.new.items ≡ without rank entries.old.items }
    ensures capacity { vec_capacity entries.new ≡ vec_capacity entries.old }
{
    let at = lower_bound(entries, rank);
    if at < entries.len() && entries[at].rank == rank {
        return Some(entries.remove(at));
    }
    None
}

/// Gives the entry of a rank another least execution and other shares, if there is one, and returns it as it was.
pub fn renew(entries: &mut [Entry], rank: u128, least: u32, shares: u32) -> Option<Entry>
    requires { IsRising entries.old }
    ensures found { result ≡ find (has_rank rank) entries.old }
    ensures items { entries.new ≡ renewed rank least shares entries.old }
{
    let at = lower_bound(entries, rank);
    if at < entries.len() && entries[at].rank == rank {
        let entry = &mut entries[at];
        let old = *entry;
        entry.least = least;
        entry.shares = shares;
        return Some(old);
    }
    None
}
