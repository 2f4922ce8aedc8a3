//! A network that loses, repeats and reorders datagrams.

/// What becomes of the datagrams on their way.
#[derive(Clone, Copy, Debug)]
pub enum Network {
    /// Each comes, in order.
    Good,
    /// The one at this index is lost.
    Loses(usize),
    /// The one at this index comes after the next one.
    Swaps(usize),
    /// The one at this index comes twice.
    Repeats(usize),
    /// One in five is lost.
    LosesOneInFive,
}

impl Network {
    /// The indices of the datagrams that come when the one at an index was sent.
    pub fn pass(self, index: usize) -> [Option<usize>; 2] {
        let before = index.checked_sub(1);
        match self {
            Network::Loses(lost) if lost == index => [None, None],
            Network::Swaps(late) if late == index => [None, None],
            Network::Swaps(late) if Some(late) == before => [Some(index), before],
            Network::Repeats(twice) if twice == index => [Some(index), Some(index)],
            Network::LosesOneInFive if index % 5 == 4 => [None, None],
            _ => [Some(index), None],
        }
    }
}
