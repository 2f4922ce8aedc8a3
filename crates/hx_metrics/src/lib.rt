//! What a venue shows of itself by HTTP: its figures as Prometheus reads them, and its health.
#![tactic(auto)]

mod answering;
mod asked;
mod clients;
mod figures;
mod metrics;
mod phase;
mod rows;
mod serving;
mod watched;

pub use answering::MetricsService;
pub use figures::Figures;
pub use metrics::write_metrics;
pub use phase::Hours;
pub use serving::serve_metrics;
pub use watched::{Health, Watched};
