//! Decides which call of a device fails.

ghost use Rattle.std.specs.Prelude.{◌≡◌, true, false};
ghost use Rattle.minisign_fixtures.specs.Turns.{after_call, failure_after, next_succeeds, no_failure};

/// A schedule of failures: the number of calls that succeed before the first failure (`None` if no
/// call fails), and whether all later calls fail too.
#[derive(Drop)]
pub struct Turn {
    passing: Option<usize>,
    is_for_good: bool,
}

impl Turn {
    /// Returns a schedule in which this number of calls succeeds, the next one fails, and all later
    /// ones succeed.
    pub fn one_failure_after(calls: usize) -> Turn
        ensures { result ≡ failure_after calls false }
    {
        Turn {
            passing: Some(calls),
            is_for_good: false,
        }
    }

    /// Returns a schedule in which this number of calls succeeds, and all later ones fail.
    pub fn failures_after(calls: usize) -> Turn
        ensures { result ≡ failure_after calls true }
    {
        Turn {
            passing: Some(calls),
            is_for_good: true,
        }
    }

    /// Returns a schedule in which no call fails.
    pub fn never() -> Turn
        ensures { result ≡ no_failure }
    {
        Turn {
            passing: None,
            is_for_good: false,
        }
    }

    /// Counts a call of the device, and returns true if it succeeds.
    pub fn passes(&mut self) -> bool
        ensures succeeds { result ≡ next_succeeds self.old }
        ensures counted { self.new ≡ after_call self.old }
    {
        match self.passing {
            Some(0) => {
                if !self.is_for_good {
                    self.passing = None;
                }
                false
            }
            Some(calls) => {
                self.passing = Some(calls - 1);
                true
            }
            None => true,
        }
    }
}
