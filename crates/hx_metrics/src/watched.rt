//! Whom the page is about.
ghost use Rattle.hx_metrics.specs.declared.figures.Figures.{Figures};
ghost use Rattle.hx_metrics.specs.declared.watched.Health.{Health};

use crate::figures::Figures;

/// Whether a venue does its work.
#[derive(Clone, Copy, Debug, PartialEq, Eq)]
pub enum Health {
    /// It does.
    Ready,
    /// Its journal waits for room: nothing is published until there is room.
    Waiting,
    /// Its journal has failed: nothing more is published.
    Stopped,
}

/// A venue that shows its figures while it works. A call must not wait for long: all clients wait
/// with it.
pub trait Watched {
    // The figures that it may show.
    ghost shows: { Self → Figures → Type 0 };

    // The health that it may be in.
    ghost is_in: { Self → Health → Type 0 };

    /// Its figures now.
    fn figures(&self) -> Figures
        ensures { shows self.now result };

    /// Its health now.
    fn health(&self) -> Health
        ensures { is_in self.now result };

    /// Whether the day is over: then no request is answered any more.
    fn is_over(&self) -> bool;
}
