//! The errors that a reply can have.
ghost use Rattle.std.specs.Prelude.{◌≡◌};
ghost use Rattle.nbd.specs.Wire.{fault_number, fault_of_bad, fault_of_device};

use bio::{BadBio, DevError};
use thiserror::Error;

/// Why a request failed, as its reply tells the client. The numbers are those of doc/proto.md,
/// "Error values", which are Linux's.
#[derive(Clone, Copy, Debug, PartialEq, Eq, Error)]
pub enum RequestFault {
    /// The data device failed the request, or the log couldn't be made sure of a write with FUA.
    #[error("the device failed the request")]
    Io,
    /// Memory for the request ran out.
    #[error("no memory for the request")]
    NoMemory,
    /// The request isn't whole blocks, has no block, or is of no known kind.
    #[error("not a request that this server takes")]
    Invalid,
    /// The request reaches past the device's end.
    #[error("past the end of the device")]
    NoSpace,
}

impl RequestFault {
    /// Returns the number that a reply has for the error.
    pub fn number(self) -> u32
        ensures { result ≡ fault_number self }
    {
        match self {
            RequestFault::Io => 5,
            RequestFault::NoMemory => 12,
            RequestFault::Invalid => 22,
            RequestFault::NoSpace => 28,
        }
    }
}

impl From<DevError> for RequestFault {
    ghost from_gives = { λ error fault. fault ≡ fault_of_device error };

    fn from(error: DevError) -> RequestFault {
        match error {
            DevError::Io => RequestFault::Io,
            DevError::Memory => RequestFault::NoMemory,
        }
    }
}

impl From<BadBio> for RequestFault {
    ghost from_gives = { λ bad fault. fault ≡ fault_of_bad bad };

    fn from(bad: BadBio) -> RequestFault {
        match bad {
            BadBio::PastEnd => RequestFault::NoSpace,
            _ => RequestFault::Invalid,
        }
    }
}
