//! A venue that shows the figures it was made with.
ghost use Rattle.std.specs.Prelude.{◌≡◌};

use hx_metrics::{Figures, Health, Watched};
use std::sync::atomic::{AtomicBool, Ordering};

#[derive(Drop)]
pub struct Model {
    pub figures: Figures,
    pub health: Health,
    pub over: AtomicBool,
}

impl Model {
    /// A venue of which only this is known: its health, and that three events are recorded.
    pub fn new(health: Health) -> Model {
        Model {
            figures: Figures {
                events: Some(3),
                ..Figures::default()
            },
            health,
            over: AtomicBool::new(false),
        }
    }
}

impl Watched for Model {
    ghost use Rattle.std.specs.Prelude.{◌≡◌};

    ghost shows = { λ venue figures. figures ≡ venue.figures };

    ghost is_in = { λ venue health. health ≡ venue.health };

    fn figures(&self) -> Figures {
        self.figures
    }

    fn health(&self) -> Health {
        self.health
    }

    fn is_over(&self) -> bool {
        self.over.load(Ordering::SeqCst)
    }
}
