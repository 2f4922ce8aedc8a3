//! What fields are called.
ghost use Rattle.std.specs.Prelude.{◌≡◌};
ghost use Rattle.hx_show.specs.Parts.{label_words};

/// What a field of a message is called (OUCH 4.2; TotalView-ITCH 5.0).
#[derive(Clone, Copy)]
pub enum Label {
    Token,
    ExistingToken,
    ReplacementToken,
    PreviousToken,
    Stock,
    Firm,
    Side,
    Display,
    Capacity,
    Sweep,
    CrossType,
    CustomerType,
    OrderState,
    Liquidity,
    CancelReason,
    RejectReason,
    BreakReason,
    HaltReason,
    DayEvent,
    HoursEvent,
    TradingState,
    Locate,
    Reference,
    OriginalReference,
    NewReference,
    MatchNumber,
    InAll,
    Minimum,
}

impl Label {
    /// It, in words.
    pub fn words(self) -> &'static str
        ensures { result.now ≡ label_words self }
    {
        match self {
            Label::Token => "token",
            Label::ExistingToken => "existing token",
            Label::ReplacementToken => "replacement token",
            Label::PreviousToken => "previous token",
            Label::Stock => "stock",
            Label::Firm => "firm",
            Label::Side => "side",
            Label::Display => "display",
            Label::Capacity => "capacity",
            Label::Sweep => "intermarket sweep",
            Label::CrossType => "cross type",
            Label::CustomerType => "customer type",
            Label::OrderState => "order state",
            Label::Liquidity => "liquidity",
            Label::CancelReason | Label::RejectReason | Label::BreakReason | Label::HaltReason =>
                "reason",
            Label::DayEvent | Label::HoursEvent => "event",
            Label::TradingState => "state",
            Label::Locate => "locate",
            Label::Reference => "reference",
            Label::OriginalReference => "original reference",
            Label::NewReference => "new reference",
            Label::MatchNumber => "match number",
            Label::InAll => "in all",
            Label::Minimum => "minimum",
        }
    }
}
