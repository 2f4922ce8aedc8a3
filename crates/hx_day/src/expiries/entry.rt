//! A time at which an order may end, and the order's index.

/// An entry. The one that ends first comes first, and of two that end at one time the one of the lower index.
#[derive(Clone, Copy, Debug, PartialEq, Eq, PartialOrd, Ord)]
pub struct Entry {
    pub expiry: u64,
    pub index: u64,
}
