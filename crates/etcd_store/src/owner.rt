// A document in an etcd, as who owns it, or doesn't, asks for it.
use crate::asked::EtcdCall;
use crate::error::StoreError;
use crate::turns::{Turns, is_of, judge, value_of};
use crate::wire::Wire;
use canvas_etcd::Turn;
use etcd_gateway::{Expected, Host, KeyChange, Keys, one_key, owner_key};
use std::alloc::{AllocError, Global};
use std::net::{Net, TcpStream};
use std::random::RandomSource;
use std::time::{Clock, Duration};

// How long it is asked for the end of a lease, which ends by itself.
const REVOKE_SECONDS: u64 = 3;

// A document in an etcd, by its endpoints and its name, and the transactions of who owns it.
pub(crate) struct Owner<
    R: Net<Stream = TcpStream> + Clock + RandomSource + AllocGlobal + Clone + Drop,
> {
    pub(crate) wire: Wire<R>,
    pub(crate) name: Vec<u8>,
    pub(crate) turns: Turns,
}

impl<R: Net<Stream = TcpStream> + Clock + RandomSource + AllocGlobal + Clone + Drop> Drop
    for Owner<R> {
    fn drop(self) {
        let Owner {
            wire: _,
            name: _,
            turns: _,
        } = self;
    }
}

impl<R: Net<Stream = TcpStream> + Clock + RandomSource + AllocGlobal + Clone + Drop> Owner<R> {
    // Nothing is asked yet.
    pub(crate) fn new(net: R, hosts: Vec<Host>, name: &[u8]) -> Result<Self, AllocError> {
        let alloc = net.alloc();
        Ok(Owner {
            name: Vec::from_slice(alloc, name)?,
            turns: Turns::new(alloc)?,
            wire: Wire::new(net, hosts),
        })
    }

    // The same once more, by a connection of its own.
    pub(crate) fn another(&self) -> Result<Self, AllocError> {
        Ok(Owner {
            wire: self.wire.another()?,
            name: Vec::from_slice(self.alloc(), &self.name)?,
            turns: self.turns.share()?,
        })
    }

    pub(crate) fn alloc(&self) -> Global {
        self.wire.alloc()
    }

    // Takes the document over under a new lease of so many seconds, where nobody owns it. Tells whether it could.
    //
    // The first transaction of an owner changes nothing: once it is done, no takeover that comes late can make another pass.
    pub(crate) fn take_over(&mut self, lease_seconds: u64) -> Result<bool, StoreError> {
        let lease = self.wire.grant(lease_seconds)?;
        let taken = match self.commit_by(Turn::takeover(lease), &[]) {
            Ok(()) => self.commit(&[]),
            Err(error) => Err(error),
        };
        if taken.is_err() {
            // Nobody has to wait for the end of a lease under which nothing was written.
            let _ = self.revoke(lease);
        }
        match taken {
            Ok(()) => Ok(true),
            Err(StoreError::Lost) => Ok(false),
            Err(error) => Err(error),
        }
    }

    // Ends a lease.
    pub(crate) fn revoke(&mut self, lease: u64) -> Result<(), StoreError> {
        let until = self.wire.after(Duration::from_secs(REVOKE_SECONDS))?;
        self.wire.ask_until(&EtcdCall::Revoke(lease), until)?;
        Ok(())
    }

    // Lets the lease go on, within so long. Tells whether it could, and the owner's key is still of that lease.
    pub(crate) fn renew(&mut self, limit: Duration) -> Result<bool, StoreError> {
        let lease = self.turns.lease();
        let until = self.wire.after(limit)?;
        let kept = self.wire.keep_alive(lease, until)?;
        if kept.seconds == 0 {
            return Ok(false);
        }
        let keys = self.owner_keys()?;
        let found = self.wire.values_until(&keys, 1, until)?;
        match found.pairs.first() {
            Some(pair) => Ok(is_of(self.alloc(), lease, &pair.value)?),
            None => Ok(false),
        }
    }

    // Checks whether somebody owns the document.
    pub(crate) fn is_owned(&mut self) -> Result<bool, StoreError> {
        let keys = self.owner_keys()?;
        let found = self.wire.names(&keys, 1, 0)?;
        Ok(!found.pairs.is_empty())
    }

    // Checks whether the owner's key says what it did after the last transaction of this owner.
    pub(crate) fn is_mine(&mut self) -> Result<bool, StoreError> {
        let Some(mark) = self.turns.mark() else {
            return Ok(false);
        };
        let value = value_of(self.alloc(), mark)?;
        let keys = self.owner_keys()?;
        let found = self.wire.values(&keys, 1, 0)?;
        Ok(found.pairs.first().is_some_and(|pair| pair.value == value))
    }

    // Makes changes, where the document is still owned.
    pub(crate) fn commit(&mut self, changes: &[KeyChange<'_>]) -> Result<(), StoreError> {
        let turn = self.turns.next()?;
        self.commit_by(turn, changes)
    }

    // Makes changes in a turn: they are made where the owner's key says what the turn wants, and write there what it says from then on. Where
    // an answer is lost, they are asked again: what the key says tells then whether they were made.
    fn commit_by(&mut self, turn: Turn, changes: &[KeyChange<'_>]) -> Result<(), StoreError> {
        let alloc = self.alloc();
        let key = owner_key(alloc, &self.name)?;
        let value = value_of(alloc, turn.to)?;
        let own = KeyChange::Put {
            key: &key,
            value: &value,
            lease: turn.to.owner,
        };
        let all = with_last(alloc, changes, own)?;
        let from = match turn.from {
            Some(mark) => Some(value_of(alloc, mark)?),
            None => None,
        };
        let committed = self.wire.commit(&key, expected(&from), &all)?;
        judge(&committed, &value)?;
        self.turns.did(turn);
        Ok(())
    }

    // The key of the owner alone.
    fn owner_keys(&self) -> Result<Keys, AllocError> {
        let alloc = self.alloc();
        one_key(alloc, owner_key(alloc, &self.name)?)
    }
}

// These changes, and then one more.
pub(crate) fn with_last<'a>(
    alloc: Global,
    changes: &[KeyChange<'a>],
    last: KeyChange<'a>,
) -> Result<Vec<KeyChange<'a>>, AllocError> {
    let mut all = Vec::from_slice(alloc, changes)?;
    all.push(last)?;
    Ok(all)
}

// What a key is to hold: this value, or nothing.
fn expected(value: &Option<Vec<u8>>) -> Expected<'_> {
    match value {
        Some(value) => Expected::Value(value),
        None => Expected::Nothing,
    }
}
