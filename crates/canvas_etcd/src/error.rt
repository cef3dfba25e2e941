// Why a store didn't become a shelf.
ghost use Rattle.std.specs.Prelude.{◌≡◌};

use canvas_shelf::ShelfError;
use std::alloc::AllocError;
use thiserror::Error;

/// Why a store didn't become a shelf.
#[derive(Clone, Copy, Debug, PartialEq, Eq, Error)]
pub enum EtcdError {
    /// Another owns the document, and its lease lives. Nothing was touched.
    #[error("document is in use")]
    InUse,
    /// A call of the store failed.
    #[error("device failed")]
    Device,
    /// Memory ran out.
    #[error("out of memory")]
    Memory,
}

impl From<ShelfError> for EtcdError {
    ghost use Rattle.canvas_etcd.specs.Opened.{etcd_error_of};

    ghost from_gives = { λ e given. given ≡ etcd_error_of e };

    fn from(error: ShelfError) -> EtcdError {
        match error {
            ShelfError::Device => EtcdError::Device,
            ShelfError::Memory => EtcdError::Memory,
        }
    }
}
