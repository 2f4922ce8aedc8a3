//! The letters of the fields, by name, as `specs/Letters.antt` has them (OUCH 4.2 and TotalView-ITCH 5.0).

/// Display (OUCH 4.2, Enter Order): shown with its firm.
pub const ATTRIBUTABLE: u8 = b'A';

/// Display: shown without its firm.
pub const ANONYMOUS: u8 = b'Y';

/// Display: not displayed.
pub const NON_DISPLAY: u8 = b'N';

/// Cross Type (OUCH 4.2, Enter Order): no cross, the continuous market.
pub const NO_CROSS: u8 = b'N';

/// Order State (OUCH 4.2, Accepted): a live order.
pub const ORDER_LIVE: u8 = b'L';

/// BBO Weight Indicator (OUCH 4.2, Accepted): no weight is given.
pub const NO_WEIGHT: u8 = b' ';

/// Liquidity Flag (OUCH 4.2, Executed Order): added, and the resting order was displayed.
pub const ADDED: u8 = b'A';

/// Liquidity Flag: the order came in and took what rested.
pub const REMOVED: u8 = b'R';

/// Liquidity Flag: added, and the resting order was not displayed.
pub const ADDED_HIDDEN: u8 = b'J';

/// Reason (OUCH 4.2, Canceled Order): the user asked for it, by a Cancel or a Replace.
pub const BY_USER: u8 = b'U';

/// Reason to cancel: what was not executed at once.
pub const IMMEDIATE_OR_CANCEL: u8 = b'I';

/// Reason to cancel: the time in force is over.
pub const TIMEOUT: u8 = b'T';

/// Reason (OUCH 4.2, Rejected Order): the market is closed to such an order.
pub const CLOSED: u8 = b'C';

/// Reason to reject: no such stock.
pub const INVALID_STOCK: u8 = b'S';

/// Reason to reject: the stock is halted.
pub const STOCK_HALTED: u8 = b'H';

/// Reason to reject: any other; side and cross type here.
pub const OTHER_REASON: u8 = b'O';

/// Reason to reject: no such display.
pub const INVALID_DISPLAY: u8 = b'D';

/// Reason to reject: shares out of range.
pub const INVALID_SHARES: u8 = b'Z';

/// Reason to reject: no price of an order.
pub const INVALID_PRICE: u8 = b'X';

/// Reason to reject: a minimum quantity that the order cannot have.
pub const INVALID_MINIMUM: u8 = b'N';

/// Trading State (ITCH 5.0, Stock Trading Action): halted.
pub const HALTED: u8 = b'H';

/// Trading State: trading.
pub const TRADING: u8 = b'T';

/// Reason (OUCH 4.2, Broken Trade): supervisory, the exchange breaks it.
pub const SUPERVISORY: u8 = b'S';

/// Event codes of the hours (ITCH 5.0, System Event Message): start of messages.
pub const START_OF_MESSAGES: u8 = b'O';

/// Event code: start of system hours.
pub const START_OF_SYSTEM_HOURS: u8 = b'S';

/// Event code: start of market hours.
pub const START_OF_MARKET_HOURS: u8 = b'Q';

/// Event code: end of market hours.
pub const END_OF_MARKET_HOURS: u8 = b'M';

/// Event code: end of system hours.
pub const END_OF_SYSTEM_HOURS: u8 = b'E';

/// Event code: end of messages.
pub const END_OF_MESSAGES: u8 = b'C';

/// The operator's own letters: time passes.
pub const TICK: u8 = b'K';

/// The operator: a stock is halted, or trades again.
pub const HALT: u8 = b'H';

/// The operator: an execution is broken.
pub const BREAK: u8 = b'B';
