// A shelf of one segment.
ghost use Rattle.std.specs.Prelude.{[], false};

use app_admin::SumSource;
use app_faults::Fault;
use canvas_shelf::{CreateError, DeviceFailed, Shelf, ShelfError};
use std::alloc::{Allocator, Global};

/// A shelf of which segment 1 has these bytes. Nothing can be written to it, and it is no honest one.
#[derive(Drop)]
pub struct OneSegment<'a> {
    /// Its bytes.
    pub bytes: &'a [u8],
}

impl Shelf for OneSegment<'_> {
    ghost disk = { λ s. [] };

    ghost past = { λ s. [] };

    ghost honest = { λ s. false };

    ghost failure_count = { λ s. 18446744073709551615 };

    ghost sound = { λ s h. record { falls = tt; segments = tt } };

    fn list<A: Allocator>(&mut self, alloc: A) -> Result<Vec<u32, A>, ShelfError> {
        Ok(Vec::from_slice(alloc, &[1])?)
    }

    fn read<A: Allocator>(&mut self, alloc: A, _number: u32) -> Result<Vec<u8, A>, ShelfError> {
        Ok(Vec::from_slice(alloc, self.bytes)?)
    }

    fn create(&mut self, _number: u32) -> Result<(), CreateError> {
        Err(CreateError::Device)
    }

    fn append(&mut self, _number: u32, _bytes: &[u8]) -> Result<(), DeviceFailed> {
        Err(DeviceFailed)
    }

    fn sync(&mut self, _number: u32) -> Result<(), DeviceFailed> {
        Err(DeviceFailed)
    }

    fn retire(&mut self, _number: u32) -> Result<(), DeviceFailed> {
        Err(DeviceFailed)
    }

    fn failures(&self) -> u64 {
        u64::MAX
    }
}

/// Sums of that segment.
#[derive(Drop)]
pub struct TheseSums<'a> {
    /// Where the bytes are.
    pub alloc: Global,
    /// Their bytes.
    pub sums: &'a [u8],
}

impl SumSource for TheseSums<'_> {
    fn sums(&self, _number: u32) -> Result<Vec<u8>, Fault> {
        Ok(Vec::from_slice(self.alloc, self.sums)?)
    }
}
