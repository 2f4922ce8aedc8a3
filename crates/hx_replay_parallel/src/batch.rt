//! Turns, which go round between two threads.
ghost use Rattle.std.specs.Prelude.{◌≡◌, ◌<◌, ◌++◌, ◌∷◌, [], IfSome, IfNone};
ghost use Rattle.rtrb.specs.Ring.{received, sent, known_free, SameConsumer, SameProducer};
ghost use Rattle.hx_replay_parallel.specs.Turns.{MayFollow};

use crate::decoding::Ahead;
use hx_replay::Unwritten;
use rtrb::{Consumer, Producer, Protocol};
use std::alloc::Global;
use std::thread::yield_now;

/// Lines that are read and not yet applied, and output that is not yet written. One thread fills it with lines, the
/// other applies them and leaves their output in it, and so on.
pub(crate) struct Batch {
    /// The lines that are read.
    pub(crate) ahead: Ahead,
    /// The output of lines.
    pub(crate) outputs: Unwritten,
}

// By hand, so that when a value is dropped its owner's proof sees one call.
impl Drop for Batch {
    fn drop(self) {
        let Batch {
            ahead: _,
            outputs: _,
        } = self;
    }
}

impl Batch {
    /// No lines, and no output.
    pub(crate) fn new(alloc: Global) -> Batch
        ensures ahead { result.ahead ≡ [] }
        ensures outputs { result.outputs ≡ [] }
    {
        Batch {
            ahead: Ahead::new(alloc),
            outputs: Unwritten::new(alloc),
        }
    }
}

/// What the thread that reads lines promises about each turn that it sends to the thread that applies them.
#[derive(Clone, Copy)]
pub(crate) struct OfLines;

impl Protocol<Batch> for OfLines {
    ghost allows = { MayFollow };
}

/// The number of turns that go round.
pub(crate) const TURNS: usize = 16;

// The number of times that a thread asks for the next turn before it gives up. Between two of them other threads may
// run.
const PATIENCE: usize = 16_384;

// Returns the next turn, if there is one, and if the ring to send it on has a free slot.
fn take_next<P: Protocol<Batch>, Q: Protocol<Batch>>(
    coming: &mut Consumer<Batch, Global, P>,
    going: &mut Producer<Batch, Global, Q>,
) -> Option<Batch>
    ensures coming { SameConsumer coming.old coming.new }
    ensures going { SameProducer going.old going.new × (sent going.new ≡ sent going.old) }
    ensures some { IfSome result (λ turn.
        (received coming.new ≡ received coming.old ++ turn ∷ [])
        × P.allows (received coming.old) turn
        × (0 < known_free going.new)) }
    ensures none { IfNone result (received coming.new ≡ received coming.old) }
{
    if going.is_full() {
        return None;
    }
    match coming.pop() {
        Ok(turn) => Some(turn),
        Err(_) => None,
    }
}

/// Waits for the next turn, and for a free slot in the ring to send it on; returns none after a long wait.
pub(crate) fn wait_next<P: Protocol<Batch>, Q: Protocol<Batch>>(
    coming: &mut Consumer<Batch, Global, P>,
    going: &mut Producer<Batch, Global, Q>,
) -> Option<Batch>
    ensures coming { SameConsumer coming.old coming.new }
    ensures going { SameProducer going.old going.new × (sent going.new ≡ sent going.old) }
    ensures some { IfSome result (λ turn.
        (received coming.new ≡ received coming.old ++ turn ∷ [])
        × P.allows (received coming.old) turn
        × (0 < known_free going.new)) }
    ensures none { IfNone result (received coming.new ≡ received coming.old) }
{
    for _ in 0..PATIENCE {
        if let Some(turn) = take_next(coming, going) {
            return Some(turn);
        }
        yield_now();
    }
    None
}
