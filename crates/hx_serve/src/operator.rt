//! The operator's lines.
ghost use Rattle.std.specs.Prelude.{List, ℕ, ◌≡◌, ◌++◌, ◌∷◌, [], IfOk, OnOk, OnErr, IfNone, OnSome};
ghost use Rattle.hx_rules.specs.declared.event.Event.{Event};
ghost use Rattle.hx_tape_lines.specs.Operators.{IsOperatorLine};
ghost use Rattle.hx_serve.specs.Faults.{line_fault};
ghost use Rattle.hx_serve.specs.Operator.{SendsAll, Conducts, ConductsOn, BreaksOff, ConductsAll, ConductsSome};

use crate::fault::ServeError;
use hx_engine::{DeskError, Exchange, Journal, Pass, SubmitError, Venue};
use hx_tape_lines::{Kind, LONGEST_LINE, read_operator_line};
use hx_units::split_once;
use std::alloc::Global;
use std::io::{ErrorKind, Read};
use std::sync::Wait;

// The fault of a line whose event the exchange refused.
fn line_fault(line: u64, error: SubmitError) -> ServeError
    ensures { result ≡ line_fault line error }
{
    let kind = match error {
        SubmitError::Stopped => return ServeError::Journal,
        SubmitError::Refused(DeskError::NoMemory) => return ServeError::NoMemory,
        SubmitError::Refused(DeskError::Full { .. }) => return ServeError::Full,
        SubmitError::Refused(DeskError::Limit { .. }) => Kind::Limit,
        SubmitError::Refused(DeskError::NoMember) => Kind::Member,
        SubmitError::Refused(DeskError::BadTime) => Kind::Time,
    };
    ServeError::Line { line, kind }
}

// The operator's desk: the pass by which the operator's events are sent, and the input that is not yet a line.
#[derive(Drop)]
struct Operator<V: Venue> {
    pass: Pass<V>,
    lines: u64,
    pending: Vec<u8>,
}

impl<V: Venue> Operator<V> {
    // An operator of whose input nothing was read.
    fn new(alloc: Global, pass: Pass<V>) -> Operator<V>
        ensures pass { result.pass ≡ pass }
        ensures nothing { result.pending.items ≡ [] }
    {
        Operator {
            pass,
            lines: 0,
            pending: Vec::new(alloc),
        }
    }

    fn bad_line(&self) -> ServeError {
        ServeError::Line {
            line: self.lines.saturating_add(1),
            kind: Kind::Bad,
        }
    }

    // Sends the event of the next line.
    fn take_line<J: Journal + Drop, T: Wait>(
        &mut self,
        rt: &T,
        alloc: Global,
        exchange: &Exchange<V, J>,
        text: &[u8],
    ) -> Result<(), ServeError>
        ensures pending { self.new.pending.items ≡ self.old.pending.items }
        ensures ok { OnOk result ((event : Event) × IsOperatorLine text.now event
            × SendsAll self.old.pass.sent self.new.pass.sent (event ∷ [])) }
        ensures err { OnErr result (self.new.pass.sent ≡ self.old.pass.sent) }
    {
        let Ok(read) = read_operator_line(alloc, text) else {
            return Err(ServeError::NoMemory);
        };
        let Some(event) = read else {
            return Err(self.bad_line());
        };
        self.lines = self.lines.saturating_add(1);
        match exchange.submit(rt, &mut self.pass, &event) {
            Ok(_) => Ok(()),
            Err(error) => Err(line_fault(self.lines, error)),
        }
    }

    // Sends the events of the lines that are whole with the next piece of the input.
    fn take_piece<J: Journal + Drop, T: Wait>(
        &mut self,
        rt: &T,
        alloc: Global,
        exchange: &Exchange<V, J>,
        piece: &[u8],
    ) -> Result<(), ServeError>
        ensures ok { OnOk result (Conducts (self.old.pending.items ++ piece.now)
            self.old.pass.sent self.new.pass.sent self.new.pending.items) }
        ensures err { OnErr result ((rest : List ℕ)
            × Conducts (self.old.pending.items ++ piece.now)
            self.old.pass.sent self.new.pass.sent rest) }
    {
        let Ok(mut text) = Vec::from_slice(alloc, &self.pending) else {
            return Err(ServeError::NoMemory);
        };
        let Ok(()) = text.extend_from_slice(piece) else {
            return Err(ServeError::NoMemory);
        };
        let mut rest = text.as_slice();
        while let Some((line, others)) = split_once(rest, b'\n') {
            match self.take_line(rt, alloc, exchange, line) {
                Ok(()) => rest = others,
                Err(fault) => return Err(fault),
            }
        }
        if rest.len() > LONGEST_LINE {
            return Err(self.bad_line());
        }
        let Ok(pending) = Vec::from_slice(alloc, rest) else {
            return Err(ServeError::NoMemory);
        };
        self.pending = pending;
        Ok(())
    }

    // Reads once, and sends the events of the lines that are whole then. Returns whether the input goes on.
    fn read_once<J: Journal + Drop, T: Wait, R: Read>(
        &mut self,
        rt: &T,
        alloc: Global,
        exchange: &Exchange<V, J>,
        reader: &mut R,
    ) -> Result<bool, ServeError>
        ensures ok { IfOk result (λ goes_on.
            ConductsOn (R.remaining reader.old) (R.remaining reader.new) self.old.pending.items
            self.new.pending.items self.old.pass.sent self.new.pass.sent goes_on) }
        ensures err { OnErr result (BreaksOff (R.remaining reader.old) (R.remaining reader.new)
            self.old.pending.items self.old.pass.sent self.new.pass.sent) }
    {
        let mut chunk = [0; 4096];
        match reader.read(&mut chunk) {
            Ok(0) => {
                if self.pending.is_empty() {
                    return Ok(false);
                }
                Err(self.bad_line())
            }
            Ok(count) => {
                let piece = &chunk[..count];
                match self.take_piece(rt, alloc, exchange, piece) {
                    Ok(()) => Ok(true),
                    Err(fault) => Err(fault),
                }
            }
            Err(error) => {
                if error.kind() == ErrorKind::Interrupted {
                    return Ok(true);
                }
                Err(ServeError::Read)
            }
        }
    }

    // Reads the input to its end, or to a fault, in at most `turns` reads.
    fn read_all<J: Journal + Drop, T: Wait, R: Read>(
        &mut self,
        rt: &T,
        alloc: Global,
        exchange: &Exchange<V, J>,
        reader: &mut R,
        turns: u64,
    ) -> Result<(), ServeError>
        requires { self.old.pending.items ≡ [] }
        ensures ok { OnOk result (ConductsAll (R.remaining reader.old) (R.remaining reader.new)
            self.old.pass.sent self.new.pass.sent) }
        ensures err { OnErr result (ConductsSome (R.remaining reader.old)
            (R.remaining reader.new) self.old.pass.sent self.new.pass.sent) }
    {
        for _ in 0..turns {
            match self.read_once(rt, alloc, exchange, reader) {
                Ok(true) => {}
                Ok(false) => return Ok(()),
                Err(fault) => return Err(fault),
            }
            if exchange.failure(rt).is_some() {
                return Err(ServeError::Journal);
            }
        }
        Err(ServeError::Turns)
    }
}

/// Reads the operator's input, and sends the event of each line by the operator's pass, up to the end of the input, the
/// first line that is bad or refused, or a journal that has failed. Returns the pass, and the fault.
pub fn operate<V: Venue, J: Journal + Drop, T: Wait, R: Read>(
    rt: &T,
    alloc: Global,
    exchange: &Exchange<V, J>,
    pass: Pass<V>,
    reader: &mut R,
    turns: u64,
) -> (Pass<V>, Option<ServeError>)
    // All was read, and the events of its lines were sent.
    ensures none { IfNone result.1 (ConductsAll (R.remaining reader.old)
        (R.remaining reader.new) pass.sent result.0.sent) }

    // The events of the lines before the fault were sent, and nothing else.
    ensures some { OnSome result.1 (ConductsSome (R.remaining reader.old)
        (R.remaining reader.new) pass.sent result.0.sent) }
{
    let mut operator = Operator::new(alloc, pass);
    match operator.read_all(rt, alloc, exchange, reader, turns) {
        Ok(()) => (operator.pass, None),
        Err(fault) => (operator.pass, Some(fault)),
    }
}
