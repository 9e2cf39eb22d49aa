//! Laws of all runs of `step`, whatever an application does between the events.

ghost use Rattle.std.specs.Prelude.{◌≡◌, ℕ, List, Option, None, true, false};
ghost use Rattle.minisign_install.specs.Decisions.{Options, comment_fault};
ghost use Rattle.minisign_install.specs.Step.{Event, Installed, Rejected, State, begin, has_ended, step};
ghost use Rattle.minisign_install.specs.StepRuns.{AllSucceed, Disk, EventFits, IsGoodRun, IsGoodUpdate};
ghost use Rattle.minisign_install.specs.StepRuns.{IsRun};
ghost use Rattle.minisign_install.specs.StepRuns.{IsSynced, Runs, World, as_check};
ghost use Rattle.minisign_install.specs.StepRuns.{decides, nothing_owned, nothing_synced, owned_by};
ghost use Rattle.minisign_install.specs.StepRuns.{synced_by};

/// States properties of every sequence of events in which each event fits the operation that is due. This
/// function is a law: it does nothing, and exists only for its contract.
pub fn any_run_of_steps()
    // A run that has ended has renamed each temporary file that it made, or has tried to remove it.
    ensures files { (o : Options) (events : List Event) (t : State)
        → IsRun (λ n s e. EventFits s e) 0 (begin o) events t → has_ended t.due ≡ true
        → owned_by (begin o) events nothing_owned ≡ nothing_owned }

    // Each file is synced before it is renamed, and the new name of the record is synced before the target
    // is renamed. A run that is not a check ends as installed or already installed only after the installed
    // file and its name were synced.
    ensures synced { (o : Options) (events : List Event) (t : State)
        → IsRun (λ n s e. EventFits s e) 0 (begin o) events t
        → IsSynced t.due t (synced_by (begin o) events nothing_synced) }

    // Until it is decided whether the update is to be installed, a check and an installation with otherwise
    // the same options take the same steps, with the same results.
    ensures check { (s : State) (e : Event) → decides s.due ≡ true → s.options.check ≡ false
        → step (as_check s) e ≡ ((step s e).0, as_check (step s e).1) }

    // If a run is rejected, although no operation failed and the lock was free, then the target and the
    // record are unchanged.
    ensures rejected { (w : World) (o : Options) (old new : Disk) (events : List (Event × Disk)) (t : State)
        → Runs w 0 (begin o) old events t new → AllSucceed events → t.due ≡ Rejected → new ≡ old }

    // Every good update can be installed: there is a run in which no operation fails, and which ends with
    // the update installed.
    ensures installable { (w : World) (o : Options) (g : IsGoodUpdate w o) (time : Option ℕ)
        → comment_fault o g.recorded.version time g.text.comments.trusted ≡ None
        → (events : List Event) × (t : State) × IsGoodRun g events t × (t.due ≡ Installed) }

    // Good updates exist, at least for a scheme that accepts every signature.
    ensures exist { (w : World) × (o : Options) × (g : IsGoodUpdate w o) × (time : Option ℕ)
        × (comment_fault o g.recorded.version time g.text.comments.trusted ≡ None) }
{}
