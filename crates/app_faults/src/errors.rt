// The faults that errors of other crates are.
ghost use Rattle.std.specs.Prelude.{◌≡◌};

use crate::fault::Fault;
use crate::row_fault::RowFault;
use app_identity::IdentityError;
use canvas_folder::FolderError;
use canvas_journal::OpenError;
use canvas_lines::Fault as LineFault;
use canvas_shelf::{CreateError, DeviceFailed, RecordError, ShelfError};
use etcd_store::StoreError;
use std::alloc::{AllocError, AllocFailed};
use std::io::{self, ErrorKind};

// The system's numbers for: this process has no descriptor left, and no process has.
const EMFILE: i32 = 24;

const ENFILE: i32 = 23;

impl From<io::Error> for Fault {
    fn from(error: io::Error) -> Fault {
        match error.kind() {
            ErrorKind::OutOfMemory => Fault::Memory,
            _ => match error.raw_os_error() {
                Some(EMFILE | ENFILE) => Fault::NoDescriptor,
                _ => Fault::Device,
            },
        }
    }
}

impl From<AllocError> for Fault {
    ghost use Rattle.app_faults.specs.declared.fault.Fault.TheVariants.{Memory};

    ghost from_gives = { λ _ fault. fault ≡ Memory };

    fn from(_: AllocError) -> Fault {
        Fault::Memory
    }
}

impl<T: Drop> From<AllocFailed<T>> for Fault {
    ghost use Rattle.app_faults.specs.declared.fault.Fault.TheVariants.{Memory};

    ghost from_gives = { λ _ fault. fault ≡ Memory };

    fn from(_: AllocFailed<T>) -> Fault {
        Fault::Memory
    }
}

impl From<RecordError> for Fault {
    ghost use Rattle.app_faults.specs.Errors.{fault_of_record};

    ghost from_gives = { λ error fault. fault ≡ fault_of_record error };

    fn from(error: RecordError) -> Fault {
        match error {
            RecordError::TooLong => Fault::TooLarge,
            RecordError::Memory => Fault::Memory,
        }
    }
}

impl From<ShelfError> for Fault {
    ghost use Rattle.app_faults.specs.Errors.{fault_of_shelf};

    ghost from_gives = { λ error fault. fault ≡ fault_of_shelf error };

    fn from(error: ShelfError) -> Fault {
        match error {
            ShelfError::Device => Fault::Device,
            ShelfError::Memory => Fault::Memory,
        }
    }
}

impl From<CreateError> for Fault {
    ghost use Rattle.app_faults.specs.Errors.{fault_of_create};

    ghost from_gives = { λ error fault. fault ≡ fault_of_create error };

    fn from(error: CreateError) -> Fault {
        match error {
            CreateError::NotMade => Fault::Memory,
            CreateError::Device => Fault::Device,
        }
    }
}

impl From<DeviceFailed> for Fault {
    ghost use Rattle.app_faults.specs.declared.fault.Fault.TheVariants.{Device};

    ghost from_gives = { λ _ fault. fault ≡ Device };

    fn from(_: DeviceFailed) -> Fault {
        Fault::Device
    }
}

impl From<OpenError> for Fault {
    ghost use Rattle.app_faults.specs.Errors.{fault_of_open_error};

    ghost from_gives = { λ error fault. fault ≡ fault_of_open_error error };

    fn from(error: OpenError) -> Fault {
        match error {
            OpenError::Device => Fault::Device,
            OpenError::Damaged { segment, offset } => Fault::Damaged { segment, offset },
            OpenError::TooLarge => Fault::TooLarge,
            OpenError::Memory => Fault::Memory,
        }
    }
}

impl From<FolderError> for Fault {
    ghost use Rattle.app_faults.specs.Errors.{fault_of_folder_error};

    ghost from_gives = { λ error fault. fault ≡ fault_of_folder_error error };

    fn from(error: FolderError) -> Fault {
        match error {
            FolderError::InUse => Fault::InUse,
            FolderError::Denied => Fault::Denied,
            FolderError::AboveDenied => Fault::AboveDenied,
            FolderError::NoDescriptor => Fault::NoDescriptor,
            FolderError::NoSpace => Fault::NoRoom,
            FolderError::Device => Fault::Device,
            FolderError::Memory => Fault::Memory,
        }
    }
}

impl From<LineFault> for Fault {
    ghost use Rattle.app_faults.specs.Errors.{fault_of_line_fault};

    ghost from_gives = { λ error fault. fault ≡ fault_of_line_fault error };

    fn from(error: LineFault) -> Fault {
        match error {
            LineFault::BadLine(line) => Fault::BadLine {
                line,
                fault: RowFault::NotARow,
            },
            LineFault::Memory => Fault::Memory,
            LineFault::Stream => Fault::Stream,
        }
    }
}

impl From<IdentityError> for Fault {
    ghost use Rattle.app_faults.specs.Errors.{fault_of_identity};

    ghost from_gives = { λ error fault. fault ≡ fault_of_identity error };

    fn from(error: IdentityError) -> Fault {
        match error {
            IdentityError::NotOne => Fault::Identity,
            IdentityError::Changed => Fault::ChangedIdentity,
            IdentityError::Device => Fault::Device,
            IdentityError::Memory => Fault::Memory,
        }
    }
}

impl From<StoreError> for Fault {
    ghost use Rattle.app_faults.specs.Errors.{fault_of_store};

    ghost from_gives = { λ error fault. fault ≡ fault_of_store error };

    fn from(error: StoreError) -> Fault {
        match error {
            StoreError::Memory => Fault::Memory,
            why => Fault::NoStore { why },
        }
    }
}
