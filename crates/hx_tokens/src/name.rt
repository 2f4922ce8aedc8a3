//! Names of orders, and their state.

use hx_units::{MemberNo, Token};

/// A token of a member (OUCH 4.2: Order Token, which each member chooses for itself).
#[derive(Clone, Copy, Debug, PartialEq, Eq)]
pub struct Name {
    /// The member that chose it.
    pub member: MemberNo,
    /// The name that the member gives the order.
    pub token: Token,
}

/// What a chain has done, all its orders together.
#[derive(Clone, Copy, Debug, PartialEq, Eq)]
pub struct ChainFacts {
    /// The shares executed.
    pub executed: u32,
    /// Whether one of its orders was displayed.
    pub displayed: bool,
    /// Whether one of its orders traded.
    pub traded: bool,
}

/// The state of a used token.
#[derive(Clone, Copy, Debug, PartialEq, Eq)]
pub struct TokenState {
    /// The index of its chain's entered token in the order of use of all members, from 0.
    pub chain: u64,
    /// What that chain has done.
    pub facts: ChainFacts,
    /// The key that was last settled for the token. The order under it may be gone.
    pub key: Option<usize>,
}
