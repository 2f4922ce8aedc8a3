//! The whole depth of a stock.
ghost use Rattle.std.specs.Prelude.{◌≡◌, None, IfOk};
ghost use Rattle.hx_market_view.specs.Depths.{AreBids, AreOffers};

use hx_reader::{FeedBook, PriceLevel};
use std::alloc::{AllocError, Global};

/// All prices of a stock's buys with what stands at each, the best first. Its only error is that
/// there is no memory.
pub fn all_bids(alloc: Global, book: &FeedBook, locate: u16) -> Result<Vec<PriceLevel>, AllocError>
    ensures { IfOk result (λ v. AreBids book.now locate None v.items) }
{
    let mut levels = Vec::new(alloc);
    let mut limit = None;
    while let Some(level) = book.bid(locate, limit) {
        levels.push(level)?;
        limit = Some(level.price);
    }
    Ok(levels)
}

/// All prices of a stock's sells with what stands at each, the best first. Its only error is that
/// there is no memory.
pub fn all_offers(
    alloc: Global,
    book: &FeedBook,
    locate: u16,
) -> Result<Vec<PriceLevel>, AllocError>
    ensures { IfOk result (λ v. AreOffers book.now locate None v.items) }
{
    let mut levels = Vec::new(alloc);
    let mut limit = None;
    while let Some(level) = book.offer(locate, limit) {
        levels.push(level)?;
        limit = Some(level.price);
    }
    Ok(levels)
}
