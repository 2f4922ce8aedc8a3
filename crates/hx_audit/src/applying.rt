//! A market that takes a history.
ghost use Rattle.std.specs.Prelude.{◌≡◌, None, IfOk, OnOk, OnErr, IfErr};
ghost use Rattle.hx_market.specs.Refusals.{refusal, or_no_memory};
ghost use Rattle.hx_market.specs.Markets.{opening};
ghost use Rattle.hx_market.specs.Steps.{step};
ghost use Rattle.hx_audit.specs.Recording.{error_at};

use crate::fault::StrikeError;
use hx_levels::LevelBook;
use hx_market::{Event, Market, PrepareError};
use hx_members::Setup;
use hx_units::NoMemory;
use std::alloc::Global;

/// The opening market of a setup. It fails only when out of memory.
pub(crate) fn open(alloc: Global, setup: &Setup) -> Result<Market<LevelBook>, NoMemory>
    ensures setup { IfOk result (λ m. m.setup ≡ setup.now) }
    ensures market { IfOk result (λ m. m.market ≡ opening setup.now) }
{
    Ok(Market::new(alloc, setup.copy(alloc)?, LevelBook::new(alloc))?)
}

/// The error of a refusal at an index.
pub(crate) fn error_at(index: u64, error: PrepareError) -> StrikeError
    ensures { result ≡ error_at index error }
{
    match error {
        PrepareError::NoMemory => StrikeError::NoMemory,
        _ => StrikeError::Refused { index, error },
    }
}

/// The market takes an event: one step.
pub(crate) fn take(market: &mut Market<LevelBook>, event: &Event) -> Result<(), PrepareError>
    ensures setup { market.new.setup ≡ market.old.setup }
    ensures passes { OnOk result
        (refusal market.old.setup market.old.market.recorded event.now ≡ None) }
    ensures market { OnOk result
        (market.new.market ≡ (step market.old.setup market.old.market event.now).market) }
    ensures retained { OnErr result (market.new.market ≡ market.old.market) }
    ensures refused { IfErr result (λ e.
        e ≡ or_no_memory (refusal market.old.setup market.old.market.recorded event.now)) }
{
    let prepared = market.prepare(event)?;
    let output = market.commit(prepared);
    market.take_back(output);
    Ok(())
}

/// The market takes the event of this index.
pub(crate) fn take_event(
    market: &mut Market<LevelBook>,
    index: u64,
    event: &Event,
) -> Result<(), StrikeError>
    ensures setup { market.new.setup ≡ market.old.setup }
    ensures passes { OnOk result
        (refusal market.old.setup market.old.market.recorded event.now ≡ None) }
    ensures market { OnOk result
        (market.new.market ≡ (step market.old.setup market.old.market event.now).market) }
    ensures refused { IfErr result (λ e.
        e ≡ error_at index (or_no_memory
        (refusal market.old.setup market.old.market.recorded event.now))) }
{
    match take(market, event) {
        Ok(()) => Ok(()),
        Err(error) => Err(error_at(index, error)),
    }
}
