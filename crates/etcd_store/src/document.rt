// A document in an etcd, and what is made of its answers.
use crate::chunks::{batch_of, join_found, note_last, note_starts};
use crate::ends::is_reached;
use crate::error::StoreError;
use crate::lease::Lease;
use crate::owner::{Owner, with_last};
use canvas_etcd::Standing;
use etcd_gateway::{
    ChunkPlace, Host, KeyChange, Keys, all_chunks, chunk_key, chunks_of, end_key, one_key,
    place_digits, place_in,
};
use std::alloc::{AllocError, Allocator, Global};
use std::net::{Net, TcpStream};
use std::random::RandomSource;
use std::time::Clock;

// How many names of keys are asked for at once.
const NAMES: u64 = 1000;

// The least number that no chunk's key can have.
const CHUNKS_END: u64 = 10000000000;

// A document in an etcd.
pub(crate) struct Document<
    R: Net<Stream = TcpStream> + Clock + RandomSource + AllocGlobal + Clone + Drop,
> {
    owner: Owner<R>,
    // After how many seconds a lease ends that isn't kept alive.
    lease_seconds: u64,
    // The revision at which it was looked.
    looked: u64,
    // The segments that stand, the highest number first.
    segments: Vec<Standing>,
}

impl<R: Net<Stream = TcpStream> + Clock + RandomSource + AllocGlobal + Clone + Drop> Drop
    for Document<R> {
    fn drop(self) {
        let Document {
            owner: _,
            lease_seconds: _,
            looked: _,
            segments: _,
        } = self;
    }
}

impl<R: Net<Stream = TcpStream> + Clock + RandomSource + AllocGlobal + Clone + Drop> Document<R> {
    // Nothing is asked yet.
    pub(crate) fn new(
        net: R,
        hosts: Vec<Host>,
        name: &[u8],
        lease_seconds: u64,
    ) -> Result<Self, AllocError> {
        let alloc = net.alloc();
        Ok(Document {
            owner: Owner::new(net, hosts, name)?,
            lease_seconds,
            looked: 0,
            segments: Vec::new(alloc),
        })
    }

    // The lease under which the document was taken over.
    pub(crate) fn lease(&self) -> Result<Lease<R>, AllocError> {
        Ok(Lease::new(self.owner.another()?))
    }

    pub(crate) fn segments(&self) -> &[Standing] {
        &self.segments
    }

    // Takes the document over, where nobody owns it.
    pub(crate) fn take_over(&mut self) -> Result<bool, StoreError> {
        if self.owner.is_owned()? {
            return Ok(false);
        }
        self.owner.take_over(self.lease_seconds)
    }

    // Checks whether somebody owns the document.
    pub(crate) fn is_owned(&mut self) -> Result<bool, StoreError> {
        self.owner.is_owned()
    }

    // Lists the segments that stand, all at one revision. `Damaged` if they don't reach the end of the last chunk that was put.
    pub(crate) fn look(&mut self) -> Result<(), StoreError> {
        let mut last = Vec::new(self.alloc());
        self.looked = self.note_all(&mut last)?;
        self.stand_all(&last)?;
        match self.end()? {
            Some(end) if !is_reached(end, &self.segments) => Err(StoreError::Damaged),
            _ => Ok(()),
        }
    }

    // The place behind the last chunk that was put, if it is noted: an older version doesn't.
    fn end(&mut self) -> Result<Option<ChunkPlace>, StoreError> {
        let key = end_key(self.alloc(), &self.owner.name)?;
        let keys = one_key(self.alloc(), key)?;
        let found = self.owner.wire.values(&keys, 1, self.looked)?;
        match found.pairs.first() {
            Some(pair) => Ok(Some(place_in(&pair.value).ok_or(StoreError::Damaged)?)),
            None => Ok(None),
        }
    }

    // Keeps how the segments stand whose last chunks these are, the lowest number first.
    fn stand_all(&mut self, last: &[ChunkPlace]) -> Result<(), StoreError> {
        self.segments.clear();
        for place in last.iter().rev() {
            let size = self.size_of(*place)?;
            self.segments.push(Standing {
                number: place.segment,
                size,
            })?;
        }
        Ok(())
    }

    // Notes the last chunk of each segment, and answers the revision at which they stood.
    fn note_all(&mut self, last: &mut Vec<ChunkPlace>) -> Result<u64, StoreError> {
        let mut keys = all_chunks(self.alloc(), &self.owner.name)?;
        let mut revision = 0;
        for _ in 0..u64::MAX {
            if !self.note_next(&mut keys, &mut revision, last)? {
                break;
            }
        }
        Ok(revision)
    }

    // The same of the next keys alone, at this revision, or at that of the answer where it is 0. Tells whether there are more.
    fn note_next(
        &mut self,
        keys: &mut Keys,
        revision: &mut u64,
        last: &mut Vec<ChunkPlace>,
    ) -> Result<bool, StoreError> {
        self.owner.turns.require_unreleased()?;
        let found = self.owner.wire.names(keys, NAMES, *revision)?;
        if *revision == 0 {
            *revision = found.revision;
        }
        note_last(&self.owner.name, &found, keys, last)
    }

    // How many bytes a segment has whose last chunk this is.
    fn size_of(&mut self, place: ChunkPlace) -> Result<u64, StoreError> {
        let keys = one_key(self.alloc(), self.key_of(place)?)?;
        let found = self.owner.wire.values(&keys, 1, self.looked)?;
        let chunk = found.pairs.first().ok_or(StoreError::Damaged)?;
        Ok(place.chunk.saturating_add(chunk.value.len() as u64))
    }

    // Reads the bytes of a segment. What another put there who owns the document by now is told as `Lost`, whatever it is.
    pub(crate) fn read<A: Allocator>(
        &mut self,
        number: u32,
        bytes: &mut Vec<u8, A>,
    ) -> Result<(), StoreError> {
        let read = self.read_all(number, bytes);
        if self.is_owner() && !self.owner.is_mine()? {
            return Err(StoreError::Lost);
        }
        read
    }

    // The same, whoever owns the document.
    fn read_all<A: Allocator>(
        &mut self,
        number: u32,
        bytes: &mut Vec<u8, A>,
    ) -> Result<(), StoreError> {
        let starts = self.starts_of(number)?;
        let mut rest = starts.as_slice();
        for _ in 0..starts.len() {
            let (batch, more) = rest.split_at(batch_of(rest));
            self.read_batch(number, batch, bytes)?;
            rest = more;
            if rest.is_empty() {
                break;
            }
        }
        Ok(())
    }

    // Where the chunks of a segment begin.
    fn starts_of(&mut self, number: u32) -> Result<Vec<u64>, StoreError> {
        let mut starts = Vec::new(self.alloc());
        let mut keys = chunks_of(self.alloc(), &self.owner.name, number)?;
        let revision = self.revision();
        for _ in 0..u64::MAX {
            self.owner.turns.require_unreleased()?;
            let found = self.owner.wire.names(&keys, NAMES, revision)?;
            if !note_starts(&self.owner.name, number, &found, &mut keys, &mut starts)? {
                break;
            }
        }
        Ok(starts)
    }

    // Reads the chunks that begin at these bytes, behind those before them.
    fn read_batch<A: Allocator>(
        &mut self,
        number: u32,
        starts: &[u64],
        bytes: &mut Vec<u8, A>,
    ) -> Result<(), StoreError> {
        let mut keys = chunks_of(self.alloc(), &self.owner.name, number)?;
        let chunk = starts.first().copied().unwrap_or(0);
        keys.from = self.key_of(ChunkPlace {
            segment: number,
            chunk,
        })?;
        let count = starts.len() as u64;
        let revision = self.revision();
        self.owner.turns.require_unreleased()?;
        let found = self.owner.wire.values(&keys, count, revision)?;
        join_found(&self.owner.name, &found, number, starts, bytes)
    }

    // Puts a chunk behind the others of a segment.
    pub(crate) fn put(&mut self, number: u32, at: u64, bytes: &[u8]) -> Result<(), StoreError> {
        let size = at.saturating_add(bytes.len() as u64);
        self.put_at(number, at, size, bytes)?;
        Ok(stand(&mut self.segments, Standing { number, size })?)
    }

    // Writes a chunk that begins here and ends there, and notes that end.
    fn put_at(&mut self, segment: u32, at: u64, size: u64, bytes: &[u8]) -> Result<(), StoreError> {
        let key = self.key_of(ChunkPlace { segment, chunk: at })?;
        let end_key = end_key(self.alloc(), &self.owner.name)?;
        let end = self.digits_of(ChunkPlace {
            segment,
            chunk: size,
        })?;
        let chunk = KeyChange::Put {
            key: &key,
            value: bytes,
            lease: 0,
        };
        let noted = KeyChange::Put {
            key: &end_key,
            value: &end,
            lease: 0,
        };
        let changes = with_last(self.alloc(), &[chunk], noted)?;
        self.owner.commit(&changes)
    }

    // Deletes a segment's chunks.
    pub(crate) fn remove(&mut self, number: u32) -> Result<(), StoreError> {
        let keys = chunks_of(self.alloc(), &self.owner.name, number)?;
        self.owner.commit(&[KeyChange::Remove(&keys)])?;
        self.segments.retain(|it| it.number != number);
        Ok(())
    }

    // The numbers of a place, as a value.
    fn digits_of(&self, place: ChunkPlace) -> Result<Vec<u8>, StoreError> {
        if place.chunk >= CHUNKS_END {
            return Err(StoreError::Damaged);
        }
        Ok(place_digits(self.alloc(), place)?)
    }

    // The key of a chunk.
    fn key_of(&self, place: ChunkPlace) -> Result<Vec<u8>, StoreError> {
        if place.chunk >= CHUNKS_END {
            return Err(StoreError::Damaged);
        }
        Ok(chunk_key(self.alloc(), &self.owner.name, place)?)
    }

    fn alloc(&self) -> Global {
        self.owner.alloc()
    }

    // Checks whether the document was taken over.
    fn is_owner(&self) -> bool {
        self.owner.turns.lease() != 0
    }

    // The revision at which chunks are read: who owns the document reads what stands, and another what stood when it looked.
    fn revision(&self) -> u64 {
        if self.is_owner() { 0 } else { self.looked }
    }
}

// Keeps how a segment stands, among those that do.
fn stand(segments: &mut Vec<Standing>, standing: Standing) -> Result<(), AllocError> {
    let number = standing.number;
    let i = segments.iter().position(|it| it.number <= number);
    match i {
        Some(i) if segments[i].number == number => segments[i] = standing,
        Some(i) => segments.insert(i, standing)?,
        None => segments.push(standing)?,
    }
    Ok(())
}
