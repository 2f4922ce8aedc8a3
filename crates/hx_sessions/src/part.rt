//! What a session is made of.
ghost use Rattle.std.specs.Prelude.{◌≡◌};

use hx_blog::Reader;
use hx_engine::{Entry, Pass, Venue};

/// What a session is made of. It always comes back.
#[derive(Drop)]
pub struct Part<V: Venue, R, W, C> {
    /// The input.
    pub input: R,
    /// The output.
    pub output: W,
    /// The clock of the messages that are taken in.
    pub inbound: C,
    /// The clock of the packets that go out.
    pub outbound: C,
    /// The pass by which messages are submitted.
    pub pass: Pass<V>,
    /// The reader by which replies are asked for.
    pub reader: Reader<Entry>,
    pub ghost belongs: { reader.log ≡ V.log },
}
