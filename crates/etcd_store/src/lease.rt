// What who owns a document holds beside its segments: a lease that has to be kept alive, and the document's identity.
use crate::error::StoreError;
use crate::owner::Owner;
use etcd_gateway::{KeyChange, Keys, identity_key, one_key};
use std::alloc::AllocError;
use std::net::{Net, TcpStream};
use std::random::RandomSource;
use std::time::{Clock, Duration};

/// The lease of a store's owner, over a connection of its own. From a thread of its own call `renew` every three seconds, for as long as
/// the document is served. Drop it, and the lease ends by itself.
///
/// `set_identity` and `remove_identity` are transactions of the owner as those of the store: of two that are under way at once, one is told
/// `Lost`.
pub struct Lease<R: Net<Stream = TcpStream> + Clock + RandomSource + AllocGlobal + Clone + Drop> {
    owner: Owner<R>,
}

impl<R: Net<Stream = TcpStream> + Clock + RandomSource + AllocGlobal + Clone + Drop> Drop
    for Lease<R> {
    fn drop(self) {
        let Lease { owner: _ } = self;
    }
}

impl<R: Net<Stream = TcpStream> + Clock + RandomSource + AllocGlobal + Clone + Drop> Lease<R> {
    // The lease of this owner.
    pub(crate) fn new(owner: Owner<R>) -> Self {
        Lease { owner }
    }

    /// The same lease once more, over a connection of its own. Errors: out of memory.
    pub fn another(&self) -> Result<Self, AllocError> {
        Ok(Lease::new(self.owner.another()?))
    }

    /// Lets the lease go on, within so long. Tells whether it could, and the owner's key is still of this lease: one that has ended doesn't
    /// begin anew, and whoever held it should stop serving.
    ///
    /// Any error but `Memory` says that no endpoint told: the lease may go on, so ask again at once. `Memory` if memory runs out.
    pub fn renew(&mut self, limit: Duration) -> Result<bool, StoreError> {
        self.owner.renew(limit)
    }

    /// Ends the lease, so that another can take the document over at once. From then on no handle of this owner reads a chunk or begins a
    /// transaction: `Lost`. So a store that is being opened by another thread stops at its next request.
    ///
    /// Any error but `Memory` says that no endpoint told: then the lease ends by itself. `Memory` if memory runs out.
    pub fn release(mut self) -> Result<(), StoreError> {
        self.owner.turns.release();
        let lease = self.owner.turns.lease();
        self.owner.revoke(lease)
    }

    /// The text of the document's identity, if it has one.
    ///
    /// `Unreachable`, `Unanswered`, `Refused` or `TlsWanted` where no endpoint told. `Memory` if memory runs out.
    pub fn identity(&mut self) -> Result<Option<Vec<u8>>, StoreError> {
        let keys = self.identity_keys()?;
        let mut found = self.owner.wire.values(&keys, 1, 0)?;
        Ok(found.pairs.pop().map(|pair| pair.value))
    }

    /// Gives the document an identity, in place of the one that it has.
    ///
    /// `Unreachable` where nothing was asked; `Unanswered` where it may have been done; `Refused` where the etcd denies it; `TlsWanted` where
    /// an endpoint speaks TLS; `NoSpace` where the etcd's quota is used up; `Lost` where another owns the document; `Memory` where memory ran
    /// out.
    pub fn set_identity(&mut self, text: &[u8]) -> Result<(), StoreError> {
        let key = identity_key(self.owner.alloc(), &self.owner.name)?;
        self.owner.commit(&[KeyChange::Put {
            key: &key,
            value: text,
            lease: 0,
        }])
    }

    /// Takes the document's identity away. The errors are those of `set_identity`.
    pub fn remove_identity(&mut self) -> Result<(), StoreError> {
        let keys = self.identity_keys()?;
        self.owner.commit(&[KeyChange::Remove(&keys)])
    }

    // The key of the identity alone.
    fn identity_keys(&self) -> Result<Keys, AllocError> {
        let alloc = self.owner.alloc();
        one_key(alloc, identity_key(alloc, &self.owner.name)?)
    }
}
