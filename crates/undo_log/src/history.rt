// The history.

ghost use Rattle.std.specs.Prelude.{◌≡◌, ◌+◌, ◌-◌, ◌<◌, ◌≤◌, false, nat_lt, [], length, is_ok, IfOk, MatchBool, MatchOption, MatchResult};
ghost use Rattle.undo_log.specs.History.{HasRoom, Noted, IsStepAt, WentBack, NoneBefore, WentOn, NoneAfter};

use crate::step::Step;
use std::alloc::{AllocError, Global};
use std::marker::Model;
use thiserror::Error;

/// No step is before the cursor.
#[derive(Debug, Drop, Error)]
#[error("nothing to undo")]
pub struct NothingToUndo;

/// No step is after the cursor.
#[derive(Debug, Drop, Error)]
#[error("nothing to redo")]
pub struct NothingToRedo;

/// The steps, from the first on, and how many of them hold: the others were undone. Contracts see both, and for how many steps
/// there is room.
#[derive(Debug, Drop)]
pub struct UndoLog {
    steps: Vec<Step>,
    cursor: usize,
}

impl Model for UndoLog {
    ghost use Rattle.std.specs.Prelude.{◌≤◌, length};
    ghost use Rattle.std.specs.Vec.{vec_capacity};
    ghost use Rattle.undo_log.specs.History.{History};

    ghost Value = { History };

    ghost view = { λ log. record {
      steps = log.steps.items;
      cursor = log.cursor;
      room = vec_capacity log.steps;
    } };

    ghost invariant = { λ log. log.cursor ≤ length log.steps.items };
}

impl UndoLog {
    ghost use Rattle.std.specs.Borrow.{sem};
    ghost use Rattle.undo_log.specs.Lends.{Becomes};

    /// No steps. Takes no memory.
    pub fn new(alloc: Global) -> UndoLog
        ensures steps { result.steps ≡ [] }
        ensures cursor { result.cursor ≡ 0 }
    {
        UndoLog {
            steps: Vec::new(alloc),
            cursor: 0,
        }
    }

    /// Makes room for one more step. Steps and cursor stay. Fails only if memory runs out; the room then stays, too.
    pub fn reserve(&mut self) -> Result<(), AllocError>
        ensures room { IfOk result (λ _. HasRoom self.new) }
        ensures steps { self.new.steps ≡ self.old.steps }
        ensures cursor { self.new.cursor ≡ self.old.cursor }
        ensures refused { is_ok result ≡ false → self.new ≡ self.old }
    {
        self.steps.reserve(1)
    }

    /// Drops the steps past the cursor, adds this one and goes past it. Takes no memory, since there is room.
    pub fn note(&mut self, s: Step)
        requires { HasRoom self.old }
        ensures { Noted self.old s self.new }
    {
        self.steps.truncate(self.cursor);
        self.steps.push_reserved(s);
        self.cursor += 1;
    }

    /// Moves the cursor back over the step before it, and returns that step. Takes no memory. Fails with `NothingToUndo` if no
    /// step is before the cursor; nothing is then changed.
    pub fn undo(&mut self) -> Result<&Step, NothingToUndo>
        ensures* after { sem 𝓛 (Becomes self.entry (λ n. MatchResult result
            (λ s. WentBack self.old s.now n) (λ _. NoneBefore self.old n))) }
    {
        if self.step_back() {
            Ok(self.next_step())
        } else {
            Err(NothingToUndo)
        }
    }

    /// Moves the cursor over the step after it, and returns that step. Takes no memory. Fails with `NothingToRedo` if no step is
    /// after the cursor; nothing is then changed.
    pub fn redo(&mut self) -> Result<&Step, NothingToRedo>
        ensures* after { sem 𝓛 (Becomes self.entry (λ n. MatchResult result
            (λ s. WentOn self.old s.now n) (λ _. NoneAfter self.old n))) }
    {
        if self.step_on() {
            Ok(self.last_step())
        } else {
            Err(NothingToRedo)
        }
    }

    /// Whether there is a step before the cursor.
    pub fn can_undo(&self) -> bool
        ensures { result ≡ nat_lt 0 self.now.cursor }
    {
        self.cursor > 0
    }

    /// Whether there is a step after the cursor.
    pub fn can_redo(&self) -> bool
        ensures { result ≡ nat_lt self.now.cursor (length self.now.steps) }
    {
        self.cursor < self.steps.len()
    }

    /// The step before the cursor, which `undo` would return.
    pub fn step_before(&self) -> Option<&Step>
        ensures { MatchOption result (self.now.cursor ≡ 0)
            (λ s. IsStepAt self.now.steps (self.now.cursor - 1) s.now) }
    {
        if self.cursor == 0 {
            return None;
        }
        Some(self.last_step())
    }

    /// The step after the cursor, which `redo` would return.
    pub fn step_after(&self) -> Option<&Step>
        ensures { MatchOption result (self.now.cursor ≡ length self.now.steps)
            (λ s. IsStepAt self.now.steps self.now.cursor s.now) }
    {
        if self.cursor < self.steps.len() {
            Some(self.next_step())
        } else {
            None
        }
    }

    // Moves the cursor back over a step, and returns whether there was one.
    fn step_back(&mut self) -> bool
        ensures cases { MatchBool result (self.new.cursor + 1 ≡ self.old.cursor)
            (NoneBefore self.old self.new) }
        ensures steps { self.new.steps ≡ self.old.steps }
        ensures room { self.new.room ≡ self.old.room }
        ensures within { self.old.cursor ≤ length self.old.steps }
    {
        if self.cursor == 0 {
            return false;
        }
        self.cursor -= 1;
        true
    }

    // Moves the cursor over a step, and returns whether there was one.
    fn step_on(&mut self) -> bool
        ensures cases { MatchBool result (self.new.cursor ≡ self.old.cursor + 1)
            (NoneAfter self.old self.new) }
        ensures steps { self.new.steps ≡ self.old.steps }
        ensures room { self.new.room ≡ self.old.room }
        ensures within { self.new.cursor ≤ length self.old.steps }
    {
        if self.cursor == self.steps.len() {
            return false;
        }
        self.cursor += 1;
        true
    }

    // The step after the cursor.
    fn next_step(&self) -> &Step
        requires { self.now.cursor < length self.now.steps }
        ensures { IsStepAt self.now.steps self.now.cursor result.now }
    {
        &self.steps[self.cursor]
    }

    // The step before the cursor.
    fn last_step(&self) -> &Step
        requires { 0 < self.now.cursor }
        ensures { IsStepAt self.now.steps (self.now.cursor - 1) result.now }
    {
        &self.steps[self.cursor - 1]
    }
}
