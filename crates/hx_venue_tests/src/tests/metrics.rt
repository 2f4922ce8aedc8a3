//! The text, each answer, and the page on loopback.

mod answers;
mod loopback;
mod texts;
mod venue;
