// The first stop, and the causes that the queue and the log show each other.
ghost use Rattle.std.specs.Prelude.{◌≡◌, ◌⊎◌, [], Option, false, true, None, Some, IfSome};
ghost use Rattle.refusals.specs.declared.run_error.End.{End as Cause};
ghost use Rattle.refusals.specs.declared.run_error.End.TheVariants.{Memory};
ghost use Rattle.lock_state.specs.History.{first_cause};
ghost use Rattle.lock_state.specs.FirstStop.{HasStopCause, IsShown, cause_number};

use crate::handles::{Fresh, Handle, Registry, Whose};
use crate::run::{EndTable, Run, StopTable};
use bio::End;
use std::marker::Model;

/// A cause that was shown: the cause of the first stop, or of the log's end. Its value in contracts
/// is the cause. Only `QueueState::show_stop` and `LogState::place` return one.
#[derive(Drop)]
pub struct ShownCause<W: Whose> {
    cause: End,
    handle: Handle<W>,
}

impl<W: Whose> Model for ShownCause<W> {
    ghost use Rattle.std.specs.Prelude.{◌≡◌, Some};
    ghost use Rattle.refusals.specs.declared.run_error.End.{End};
    ghost use Rattle.lock_state.specs.FirstStop.{cause_number};

    ghost Value = { End };

    ghost view = { λ s. s.cause };

    ghost invariant = { λ s. s.handle.held ≡ Some (cause_number s.cause) };
}

impl<W: Whose> ShownCause<W> {
    pub fn cause(&self) -> End
        ensures { result ≡ self.now }
    {
        self.cause
    }

    // Shows this cause to a new handle. The registry hasn't shown another cause.
    pub(crate) fn new(registry: &mut Registry<W>, cause: End) -> ShownCause<W>
        requires { IsShown (Some cause) registry.old }
        ensures shown { IsShown (Some cause) registry.new }
        ensures cause { result ≡ cause }
    {
        let handle = registry.enrol();
        ShownCause::to(handle, registry, cause)
    }

    // Shows this cause to the handle. The registry hasn't shown another cause.
    fn to(handle: Handle<W>, registry: &mut Registry<W>, cause: End) -> ShownCause<W>
        requires { IsShown (Some cause) registry.old }
        ensures shown { IsShown (Some cause) registry.new }
        ensures cause { result ≡ cause }
    {
        let mut handle = handle;
        registry.begin(&mut handle, number_of(cause));
        ShownCause { cause, handle }
    }

    // Confirms that the registry shows this cause, if the registry shows only one cause. Nothing
    // changes.
    pub(crate) fn confirm(&mut self, registry: &mut Registry<W>)
        ensures same { (self.new ≡ self.old) × (registry.new ≡ registry.old) }
        ensures shown { (shown : Option Cause) → IsShown shown registry.old
            → shown ≡ Some self.old }
    {
        registry.agree(&mut self.handle);
    }
}

/// The cause of the first stop, if there was one; this is also the value in contracts. A registry
/// knows whether the cause was shown to the writer. Unless the cause is Memory, it is the cause of
/// the log's end, which the log has shown.
#[derive(Drop)]
pub struct FirstStop<R: Run> {
    cause: Option<End>,
    ended: Option<ShownCause<EndTable<R>>>,
    registry: Registry<StopTable<R>>,
}

impl<R: Run> Model for FirstStop<R> {
    ghost use Rattle.std.specs.Prelude.{Option};
    ghost use Rattle.refusals.specs.declared.run_error.End.{End};
    ghost use Rattle.lock_state.specs.FirstStop.{HasStopCause, IsShown};

    ghost Value = { Option End };

    ghost view = { λ s. s.cause };

    ghost invariant = { λ s. IsShown s.cause s.registry × HasStopCause s.cause s.ended };
}

/// The writer's right to be shown the first stop, once. Its value in contracts is whether the right
/// is unused.
#[derive(Drop)]
pub struct StopPart<R: Run> {
    handle: Option<Handle<StopTable<R>>>,
}

impl<R: Run> Model for StopPart<R> {
    ghost use Rattle.std.specs.Prelude.{Bool, is_some};

    ghost Value = { Bool };

    ghost view = { λ p. is_some p.handle };
}

impl<R: Run> FirstStop<R> {
    /// Returns the value before the first stop, and the writer's right.
    pub fn new(fresh: Fresh) -> (FirstStop<R>, StopPart<R>)
        requires { fresh ≡ R.stops }
        ensures stop { result.0 ≡ None }
        ensures part { result.1 ≡ true }
    {
        let mut registry = fresh.named::<StopTable<R>>();
        let handle = registry.enrol();
        (
            FirstStop {
                cause: None,
                ended: None,
                registry,
            },
            StopPart {
                handle: Some(handle),
            },
        )
    }

    /// Returns the cause of the first stop, if there was one.
    pub fn cause(&self) -> Option<End>
        ensures { result ≡ self.now }
    {
        self.cause
    }

    // Stores the cause of a stop: Memory, or the cause of the log's end, which was shown. If there
    // was an earlier stop, its cause stays.
    pub(crate) fn keep(&mut self, cause: End, ended: Option<ShownCause<EndTable<R>>>)
        requires { (cause ≡ Memory) ⊎ (ended ≡ Some cause) }
        ensures { self.new ≡ first_cause self.old (Some cause) }
    {
        if self.cause.is_none() {
            self.cause = Some(cause);
            self.ended = ended;
        }
    }

    /// Shows the first stop to the writer. Returns None if there is no stop, or if the stop was
    /// shown before.
    pub fn show(&mut self, mine: &mut StopPart<R>) -> Option<ShownCause<StopTable<R>>>
        ensures same { self.new ≡ self.old }
        ensures shown { IfSome result (λ cause. self.old ≡ Some cause) }
        ensures none { result ≡ None → (self.old ≡ None) ⊎ (mine.old ≡ false) }
        ensures kept { result ≡ None → mine.new ≡ mine.old }
        ensures once { IfSome result (λ _. mine.new ≡ false) }
    {
        let Some(cause) = self.cause else {
            return None;
        };
        let Some(handle) = mine.handle.take() else {
            return None;
        };
        Some(ShownCause::to(handle, &mut self.registry, cause))
    }

    /// Confirms that the stop that was shown to the writer is the first stop. Nothing changes.
    pub fn confirm(&mut self, stopped: &mut ShownCause<StopTable<R>>)
        ensures same { (self.new ≡ self.old) × (stopped.new ≡ stopped.old) }
        ensures shown { self.old ≡ Some stopped.old }
    {
        stopped.confirm(&mut self.registry);
    }

    // Confirms that the first stop came because memory ran out, or by the log's end. Nothing
    // changes.
    pub(crate) fn confirm_cause(&mut self, ends: &mut Registry<EndTable<R>>)
        ensures same { (self.new ≡ self.old) × (ends.new ≡ ends.old) }
        ensures cause { (end : Option Cause) → IsShown end ends.old → HasStopCause self.old end }
    {
        if let Some(ended) = &mut self.ended {
            ended.confirm(ends);
        }
    }
}

fn number_of(cause: End) -> u64
    ensures { result ≡ cause_number cause }
{
    match cause {
        End::Full => 0,
        End::Device => 1,
        End::Memory => 2,
    }
}
