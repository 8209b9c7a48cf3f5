//! What the host says of an error.
use inc_inputs::Hindrance;
use inc_text::ReadFault;
use std::cell::Cell;
use std::io::{Error, ErrorKind};

/// What stood in the way, by an error of the host.
pub(crate) fn hindrance_of(error: &Error) -> Hindrance {
    match error.kind() {
        ErrorKind::NotFound => Hindrance::Missing,
        ErrorKind::IsADirectory => Hindrance::Folder,
        ErrorKind::NotADirectory => Hindrance::NoFolder,
        ErrorKind::PermissionDenied => Hindrance::Denied,
        ErrorKind::StorageFull => Hindrance::Full,
        _ => numbered(error),
    }
}

/// The number that the system gives an error, if it is one of the system's.
fn numbered(error: &Error) -> Hindrance {
    match error.raw_os_error() {
        Some(number) if number > 0 => Hindrance::Fault(number as u32),
        _ => Hindrance::Other,
    }
}

/// The fault of a reading that ended by an error. `hindrance` keeps what stood in its way.
pub(crate) fn fault_of(error: Error, hindrance: &Cell<Hindrance>) -> ReadFault {
    hindrance.set(hindrance_of(&error));
    match error.kind() {
        ErrorKind::OutOfMemory => ReadFault::NoMemory,
        _ => ReadFault::Read,
    }
}
