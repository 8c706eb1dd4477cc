//! Laws of the cache machine: its runs leave exactly the contents that a device could hold. The
//! laws are about the definitions in `specs/`, not about code. The laws of `dmlw_commands` call
//! `possible_is_exact`.
ghost use Rattle.std.specs.Prelude.{◌≡◌, List, take, true, ℕ};
ghost use Rattle.bio.specs.declared.event.CoreEvent.{CoreEvent};
ghost use Rattle.bio.specs.Events.{is_well_formed};
ghost use Rattle.bio.specs.Possible.{Possible};
ghost use Rattle.bio.specs.Content.{Content};
ghost use Rattle.world.specs.declared.step.Step.{Step};
ghost use Rattle.world.specs.Cells.{AllSteps, IsFresh, IsRun, WorldState};
ghost use Rattle.world.specs.Machine.{IsReachable};

/// Let the events be well formed. A device could hold a content after the first `moment` events
/// exactly if some run of the machine fits these events and leaves the content. For any events, a
/// run leaves only contents that the device could hold.
pub fn possible_is_exact()
    ensures reachable { (events : List CoreEvent) (moment : ℕ) (first now : Content)
        → is_well_formed events ≡ true →
        Possible (take moment events) first now → IsReachable (take moment events) first now }
    ensures possible { (events : List CoreEvent) (moment : ℕ) (first now : Content) →
        IsReachable (take moment events) first now → Possible (take moment events) first now }
{}

/// If a fresh world takes steps, all with the same events, the steps are a run of the machine. The
/// world's image is the durable content after that run.
pub fn steps_are_a_run()
    ensures { (events : List CoreEvent) (first : List ℕ) (steps : List Step)
        (fresh world : WorldState) →
        IsFresh first fresh → AllSteps events steps fresh world → IsRun events first steps world }
{}
