//! Why no more connections are served.

use bike_console::Fault;
use std::alloc::AllocError;
use thiserror::Error;

/// Why no more connections are served, or none.
#[derive(Clone, Copy, Debug, PartialEq, Eq, Error)]
pub enum ServerFault {
    /// The store failed, and the desk is stopped.
    #[error("store failed")]
    StoreFailed,
    /// Memory was refused, before the first connection.
    #[error("out of memory")]
    OutOfMemory,
    /// The port can't be listened on.
    #[error("bind failed")]
    BindFailed,
    /// The line that names the port can't be written.
    #[error("write failed")]
    WriteFailed,
    /// No connection can be accepted.
    #[error("accept failed")]
    AcceptFailed,
}

impl From<AllocError> for ServerFault {
    ghost use Rattle.std.specs.Prelude.{◌≡◌};
    ghost use Rattle.bike_server.specs.declared.fault.ServerFault.TheVariants.{OutOfMemory};

    ghost from_gives = { λ _ told. told ≡ OutOfMemory };

    fn from(_: AllocError) -> ServerFault {
        ServerFault::OutOfMemory
    }
}

impl From<ServerFault> for Fault {
    ghost use Rattle.std.specs.Prelude.{◌≡◌};
    ghost use Rattle.bike_server.specs.Listening.{server_fault};

    ghost from_gives = { λ fault told. told ≡ server_fault fault };

    fn from(fault: ServerFault) -> Fault {
        match fault {
            ServerFault::StoreFailed => Fault::StoreFailed,
            ServerFault::OutOfMemory => Fault::OutOfMemory,
            ServerFault::BindFailed => Fault::BindFailed,
            ServerFault::WriteFailed => Fault::WriteFailed,
            ServerFault::AcceptFailed => Fault::AcceptFailed,
        }
    }
}
