//! A question to one node, and what its answer says.
ghost use Rattle.std.specs.Prelude.{◌≡◌, ◌∷◌, if◌then◌else◌};
ghost use Rattle.hx_etcd_log.specs.Asks.{outcome_of, lost_after};
ghost use Rattle.hx_etcd_log.specs.EtcdLogs.{asks_of};

use crate::{AskError, EtcdLog, Nodes};
use hx_etcd::Answer;
use hx_fenced_log::LogError;

// The outcomes of an ask, as they are noted.
const ANSWERED: u64 = 0;

const UNSENT: u64 = 1;

const LOST: u64 = 2;

// How often each node is asked if no answer reports anything.
const ROUNDS: usize = 2;

impl<N: Nodes> EtcdLog<N> {
    // Asks the node whose turn it is.
    pub(crate) fn ask(&mut self, request: &[u8]) -> Result<Answer, AskError>
        ensures noted { asks_of self.new ≡ record {
          node = self.old.node;
          request = request.now;
          outcome = outcome_of result;
        } ∷ asks_of self.old }
        ensures reported { self.new.reported ≡ self.old.reported }
    {
        let node = self.node as u64;
        let outcome = self.nodes.ask(self.node, request);
        match &outcome {
            Ok(answer) => {
                let numbers = [node, ANSWERED, answer.status as u64];
                self.asks.note(&numbers, request, &answer.body);
            }
            Err(AskError::Unsent) => self.asks.note(&[node, UNSENT, 0], request, &[]),
            Err(AskError::Lost) => self.asks.note(&[node, LOST, 0], request, &[]),
        }
        outcome
    }

    // It is the next node's turn.
    pub(crate) fn turn(&mut self)
        ensures asks { asks_of self.new ≡ asks_of self.old }
        ensures reported { self.new.reported ≡ self.old.reported }
    {
        self.node = match self.node.checked_add(1) {
            Some(next) if next < self.nodes.count() => next,
            _ => 0,
        };
    }

    // How many asks are made before it is given up.
    pub(crate) fn tries(&self) -> usize {
        self.nodes.count().saturating_mul(ROUNDS)
    }
}

// Whether some node may have taken what it was asked, once one more gives no answer.
pub(crate) fn lost_after(is_lost: bool, error: AskError) -> bool
    ensures { result ≡ lost_after is_lost error }
{
    match error {
        AskError::Unsent => is_lost,
        AskError::Lost => true,
    }
}

// Why no answer reported anything.
pub(crate) fn error_of(is_lost: bool) -> LogError
    ensures { result ≡ (if is_lost then LogError.Unknown else LogError.Unreachable) }
{
    if is_lost {
        LogError::Unknown
    } else {
        LogError::Unreachable
    }
}
