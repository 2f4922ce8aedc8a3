//! Why a text is no command.

use thiserror::Error;

/// Why a text is no command.
#[derive(Clone, Copy, Debug, PartialEq, Eq, Drop, Error)]
pub enum WordError {
    /// It has no word.
    #[error("no word: say help")]
    NoWord,
    /// Its first word begins no command.
    #[error("unknown word: say help")]
    UnknownWord,
    /// It has more words than its command.
    #[error("too many words")]
    TooMany,
    /// Nothing follows `code`.
    #[error("a code is missing")]
    MissingCode,
    /// Nothing follows `halt` or `resume`.
    #[error("a stock is missing")]
    MissingStock,
    /// Nothing follows the stock of `halt`.
    #[error("a reason is missing")]
    MissingReason,
    /// Nothing follows `break`.
    #[error("a match number is missing")]
    MissingNumber,
    /// Nothing follows `drop`, `allow` or `refuse`.
    #[error("a member's number is missing")]
    MissingMember,
    /// What follows `code` is no code of the hours.
    #[error("no code: O, S, Q, M, E or C")]
    NoCode,
    /// What follows `halt` or `resume` is no stock's name.
    #[error("no stock: 1 to 8 visible characters")]
    NoStock,
    /// What follows the stock is no reason.
    #[error("no reason: 1 to 4 capital letters or digits")]
    NoReason,
    /// What follows `break` is no number.
    #[error("no match number")]
    NoNumber,
    /// What follows `drop`, `allow` or `refuse` is no member's number.
    #[error("no member's number: 1 to 4095")]
    NoMember,
    /// A text in quotes follows another command than `halt`.
    #[error("a text in quotes follows halt alone")]
    NoNote,
    /// A double quote has no second one.
    #[error("a quote is not closed")]
    OpenQuote,
}
