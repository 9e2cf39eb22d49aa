//! The reasons for which a request has no result.

ghost use Rattle.std.specs.Prelude.{◌≡◌};
ghost use Rattle.minisign_base.specs.Fault.{Named};
ghost use Rattle.minisign_base.specs.declared.faults.NamedFault.TheVariants.{OutOfMemory};
ghost use Rattle.minisign_compare.specs.declared.refusals.Refusal.TheVariants.{Fault};

use minisign::PError;
use minisign::base::NamedFault;
use std::alloc::{AllocError, AllocFailed};

/// The reason for which a request has no result to print.
#[derive(Drop)]
pub enum Refusal {
    /// The library's call returned an error.
    Fault(PError),
    /// The request does not meet a precondition of the call.
    OutsideConditions,
    /// The line is not a request.
    BadRequest,
}

impl From<PError> for Refusal {
    ghost from_gives = { λ f e. e ≡ Fault f };

    fn from(fault: PError) -> Refusal {
        Refusal::Fault(fault)
    }
}

impl From<AllocError> for Refusal {
    ghost from_gives = { λ _ e. e ≡ Fault (Named OutOfMemory) };

    fn from(_error: AllocError) -> Refusal {
        Refusal::Fault(NamedFault::OutOfMemory.into())
    }
}

impl<T: Drop> From<AllocFailed<T>> for Refusal {
    ghost from_gives = { λ _ e. e ≡ Fault (Named OutOfMemory) };

    fn from(_error: AllocFailed<T>) -> Refusal {
        Refusal::Fault(NamedFault::OutOfMemory.into())
    }
}
