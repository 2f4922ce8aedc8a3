//! The vendor's screen as a web page in a browser: which request gets which answer, and the browsers that receive each
//! change.
#![tactic(auto)]

mod answering;
mod asked;
mod assets;
mod browser;
mod clients;
mod handshake;
mod serving;

pub use answering::WebService;
pub use serving::serve_web;
