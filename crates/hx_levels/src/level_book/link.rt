//! A link from a linked order to another.
ghost use Rattle.std.specs.Prelude.{◌≡◌, ◌+◌, ◌<◌, ◌^◌, Some, None};
ghost use Rattle.std.specs.Option.{is_some};

use std::marker::Model;

/// The key of a linked order, or none, in one word: the number 0 is none, and any other is one more than its key.
#[derive(Clone, Copy)]
pub struct Link {
    number: usize,
}

impl Model for Link {
    ghost use Rattle.std.specs.Prelude.{ℕ, Option};
    ghost use Rattle.hx_levels.specs.Link.{link_of, link_number};

    ghost Value = { Option ℕ };

    ghost view = { λ l. link_of l.number };

    ghost inverse = { λ key. record { number = link_number key } };
}

impl Link {
    /// The link that leads nowhere.
    pub fn none() -> Link
        ensures { result ≡ None }
    {
        Link { number: 0 }
    }

    /// The link to a key.
    pub fn to(key: usize) -> Link
        requires { key + 1 < 2 ^ 64 }
        ensures { result ≡ Some key }
    {
        Link { number: key + 1 }
    }

    /// The key that it leads to, if there is one.
    pub fn get(self) -> Option<usize>
        ensures { result ≡ self }
    {
        if self.number == 0 {
            return None;
        }
        Some(self.number - 1)
    }

    /// Whether it leads to a key.
    pub fn is_some(self) -> bool
        ensures { result ≡ is_some self }
    {
        self.number != 0
    }
}
