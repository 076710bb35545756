//! Why a program was not thinned.

use fleet_model::OutOfMemory;
use thiserror::Error;

/// Why a program was not thinned.
#[derive(Clone, Copy, Debug, PartialEq, Eq, Error)]
pub enum ThinFault {
    #[error("out of memory")]
    OutOfMemory,
}

impl From<OutOfMemory> for ThinFault {
    ghost use Rattle.std.specs.Prelude.{◌≡◌};
    ghost use Rattle.fleet_adg.specs.declared.thin_fault.ThinFault.TheVariants.{OutOfMemory};

    ghost from_gives = { λ _ e. e ≡ OutOfMemory };

    fn from(_e: OutOfMemory) -> ThinFault {
        ThinFault::OutOfMemory
    }
}
