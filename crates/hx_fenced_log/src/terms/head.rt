//! The heads of records.
ghost use Rattle.std.specs.Prelude.{◌↔◌, IsTrue};
ghost use Rattle.hx_fenced_log.specs.Records.{IsNumber, IsHead};

/// The first number that has 15 digits.
pub(crate) const NUMBER_END: u64 = 100_000_000_000_000;

/// The writer of a record, and where the record stands. Each number is from 1 to 99,999,999,999,999 if the record is in
/// a log.
#[derive(Clone, Copy, Debug, PartialEq, Eq)]
pub struct Head {
    /// Which record of the log it is, from 1 on.
    pub number: u64,
    /// The term of its writer.
    pub term: u64,
    /// Its writer.
    pub writer: u64,
    /// The index of its first line among all lines that count, from 1 on.
    pub index: u64,
}

impl Head {
    /// Whether a record of a log may have this head.
    pub fn is_of_log(&self) -> bool
        ensures { IsTrue result ↔ IsHead self.now }
    {
        is_number(self.number)
            && is_number(self.term)
            && is_number(self.writer)
            && is_number(self.index)
    }
}

// Whether a number stands in heads.
fn is_number(number: u64) -> bool
    ensures { IsTrue result ↔ IsNumber number }
{
    number > 0 && number < NUMBER_END
}
