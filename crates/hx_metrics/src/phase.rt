//! The hours of a day.
ghost use Rattle.std.specs.Prelude.{◌≡◌};
ghost use Rattle.hx_metrics.specs.Hours.{last_of, letter_of};

/// A code of the hours (ITCH 5.0, System Event Message).
#[derive(Clone, Copy, Debug, PartialEq, Eq)]
pub enum Hours {
    /// `O`: start of messages.
    StartOfMessages,
    /// `S`: start of system hours.
    StartOfSystemHours,
    /// `Q`: start of market hours.
    StartOfMarketHours,
    /// `M`: end of market hours.
    EndOfMarketHours,
    /// `E`: end of system hours.
    EndOfSystemHours,
    /// `C`: end of messages.
    EndOfMessages,
}

impl Hours {
    /// The last of n codes, which come in their order; none before the first, and none if
    /// there are fewer.
    pub fn last_of(codes: u8) -> Option<Hours>
        ensures { result ≡ last_of codes }
    {
        match codes {
            1 => Some(Hours::StartOfMessages),
            2 => Some(Hours::StartOfSystemHours),
            3 => Some(Hours::StartOfMarketHours),
            4 => Some(Hours::EndOfMarketHours),
            5 => Some(Hours::EndOfSystemHours),
            6 => Some(Hours::EndOfMessages),
            _ => None,
        }
    }

    /// Its letter.
    pub fn letter(self) -> u8
        ensures { result ≡ letter_of self }
    {
        match self {
            Hours::StartOfMessages => b'O',
            Hours::StartOfSystemHours => b'S',
            Hours::StartOfMarketHours => b'Q',
            Hours::EndOfMarketHours => b'M',
            Hours::EndOfSystemHours => b'E',
            Hours::EndOfMessages => b'C',
        }
    }
}
