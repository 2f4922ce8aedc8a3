//! Which stocks are halted, and the executions of the day.
ghost use Rattle.std.specs.Prelude.{◌≡◌, ◌+◌, ◌<◌, ◌≤◌, ◌++◌, ◌∷◌, [], suc, IfOk, IsOk, OnOk, length, replicate, slice_set, false, true};
ghost use Rattle.std.specs.Option.{option_map};
ghost use Rattle.hx_rules.specs.Breaks.{execution_of, with_execution};

use hx_match::Fill;
use hx_rules::Match;
use hx_units::{NoMemory, reserve_ahead};
use std::alloc::Global;
use std::marker::Model;

/// Which stocks are halted, each under its locate, and the executions, in the order of their match numbers.
#[derive(Drop)]
pub struct Trading {
    halted: Vec<bool>,
    executions: Vec<Match>,
}

impl Model for Trading {
    ghost use Rattle.std.specs.Prelude.{◌-◌};
    ghost use Rattle.std.specs.Vec.{vec_len, vec_capacity};
    ghost use Rattle.hx_day.specs.Day.{TradingState};

    ghost Value = { TradingState };

    ghost view = { λ t. record {
      halted = t.halted.items;
      executions = t.executions.items;
      room = vec_capacity t.executions - vec_len t.executions;
    } };
}

impl Trading {
    /// None of `stocks` stocks is halted, and nothing is executed. `NoMemory` if there is no memory for the states.
    pub fn new(alloc: Global, stocks: u16) -> Result<Trading, NoMemory>
        ensures halted { IfOk result (λ t. t.halted ≡ replicate (suc stocks) false) }
        ensures executions { IfOk result (λ t. t.executions ≡ []) }
    {
        Ok(Trading {
            halted: vec![in alloc; false; stocks as usize + 1]?,
            executions: Vec::new(alloc),
        })
    }

    /// Whether each stock is halted, under its locate.
    pub fn halted(&self) -> &[bool]
        ensures { result.now ≡ self.now.halted }
    {
        &self.halted
    }

    /// The execution of a match number; none if that was never drawn.
    pub fn execution(&self, number: u64) -> Option<Match>
        ensures { result ≡ execution_of self.now.executions number }
    {
        if number == 0 {
            return None;
        }
        self.executions.get((number - 1) as usize).copied()
    }

    /// Makes room for the executions of these fills, if there is not enough. `NoMemory` if there is none; the
    /// executions stay.
    pub fn reserve_for(&mut self, fills: &[Fill]) -> Result<(), NoMemory>
        ensures halted { self.new.halted ≡ self.old.halted }
        ensures executions { self.new.executions ≡ self.old.executions }
        ensures room { OnOk result (length fills.now ≤ self.new.room) }
        ensures memory { length fills.now ≤ self.old.room → IsOk result }
    {
        reserve_ahead(&mut self.executions, fills.len())
    }

    /// One more execution, with the next match number. There is room for it.
    pub fn push(&mut self, execution: Match)
        requires { 0 < self.old.room }
        ensures halted { self.new.halted ≡ self.old.halted }
        ensures executions { self.new.executions ≡ self.old.executions ++ execution ∷ [] }
        ensures room { self.new.room + 1 ≡ self.old.room }
    {
        self.executions.push_reserved(execution);
    }

    /// The stock of this locate is halted, or is not.
    pub fn set_halted(&mut self, locate: u16, is_halted: bool)
        ensures halted { self.new.halted ≡ slice_set self.old.halted locate is_halted }
        ensures executions { self.new.executions ≡ self.old.executions }
    {
        let index = locate as usize;
        if index < self.halted.len() {
            self.halted[index] = is_halted;
        }
    }

    /// The execution of a match number, which is this one, is broken.
    pub fn mark_broken(&mut self, number: u64, execution: &Match)
        ensures halted { self.new.halted ≡ self.old.halted }
        ensures executions { self.new.executions
            ≡ with_execution self.old.executions number (record execution.now { broken = true }) }
    {
        if number == 0 {
            return;
        }
        let index = (number - 1) as usize;
        if index < self.executions.len() {
            let mut broken = *execution;
            broken.broken = true;
            self.executions[index] = broken;
        }
    }
}
