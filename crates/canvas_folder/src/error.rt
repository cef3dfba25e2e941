// Why a folder didn't become a shelf.
ghost use Rattle.std.specs.Prelude.{◌≡◌};

use canvas_shelf::ShelfError;
use thiserror::Error;

/// Why a folder didn't become a shelf.
#[derive(Clone, Copy, Debug, PartialEq, Eq, Error)]
pub enum FolderError {
    /// Another holds the folder's lock. Nothing was touched.
    #[error("folder is in use")]
    InUse,
    /// This process has no rights to read the folder, or to search it.
    #[error("no rights to the folder")]
    Denied,
    /// The folder can't be reached or made, or made certain: this process has no rights to a folder above it.
    #[error("no rights to a folder above")]
    AboveDenied,
    /// This process has too few descriptors left, or no process has one.
    #[error("no descriptor is left")]
    NoDescriptor,
    /// The disk has no room to make the folder.
    #[error("no space for the folder")]
    NoSpace,
    /// The device failed, or the folder can't be made or read for another reason.
    #[error("device failed")]
    Device,
    /// Memory ran out.
    #[error("out of memory")]
    Memory,
}

impl From<ShelfError> for FolderError {
    ghost use Rattle.canvas_folder.specs.Opened.{error_of};

    ghost from_gives = { λ e given. given ≡ error_of e };

    fn from(error: ShelfError) -> FolderError {
        match error {
            ShelfError::Device => FolderError::Device,
            ShelfError::Memory => FolderError::Memory,
        }
    }
}
