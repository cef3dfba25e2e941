// Requests to an etcd's endpoints.
use crate::asked::{EtcdAnswer, EtcdCall};
use crate::deadline::{Deadline, share_of};
use crate::error::{StoreError, error_of, is_final, more_telling};
use crate::exchange::{Arrival, connect, exchange, is_open, speaks_tls};
use etcd_gateway::{
    Answer, Committed, Expected, Found, Host, KeyChange, Keys, Lease, copy_hosts, read_refused,
};
use std::alloc::{AllocError, Global};
use std::net::{Net, TcpStream};
use std::random::RandomSource;
use std::thread::sleep;
use std::time::{Clock, Duration};

// The most seconds that a call takes, over all endpoints: less than a server's lease lasts.
const CALL_SECONDS: u64 = 9;

// How long it rests between two rounds over the endpoints.
const REST_MILLIS: u64 = 250;

// How long an endpoint may take to tell that it speaks TLS. One that doesn't may say nothing.
const TLS_MILLIS: u64 = 300;

// The endpoints of an etcd, and a connection to one of them.
pub(crate) struct Wire<
    R: Net<Stream = TcpStream> + Clock + RandomSource + AllocGlobal + Clone + Drop,
> {
    net: R,
    hosts: Vec<Host>,
    // Which endpoint is asked first.
    at: usize,
    stream: Option<TcpStream>,
    // Whether an endpoint has ever answered.
    has_answered: bool,
}

impl<R: Net<Stream = TcpStream> + Clock + RandomSource + AllocGlobal + Clone + Drop> Drop
    for Wire<R> {
    fn drop(self) {
        let Wire {
            net: _,
            hosts: _,
            at: _,
            stream: _,
            has_answered: _,
        } = self;
    }
}

impl<R: Net<Stream = TcpStream> + Clock + RandomSource + AllocGlobal + Clone + Drop> Wire<R> {
    // None is connected yet. Which is asked first is a matter of chance, so that not all servers hang on one.
    pub(crate) fn new(net: R, hosts: Vec<Host>) -> Self {
        let at = chosen(&net, hosts.len());
        Wire {
            net,
            hosts,
            at,
            stream: None,
            has_answered: false,
        }
    }

    pub(crate) fn alloc(&self) -> Global {
        self.net.alloc()
    }

    // The same endpoints, by a connection of its own.
    pub(crate) fn another(&self) -> Result<Wire<R>, AllocError> {
        let hosts = copy_hosts(self.net.alloc(), &self.hosts)?;
        Ok(Wire {
            net: self.net.clone()?,
            hosts,
            at: self.at,
            stream: None,
            has_answered: self.has_answered,
        })
    }

    // The moment after so long.
    pub(crate) fn after(&self, limit: Duration) -> Result<Deadline, StoreError> {
        Deadline::after(&self.net, limit)
    }

    // What the first endpoint tells that answers.
    pub(crate) fn ask(&mut self, asked: &EtcdCall<'_>) -> Result<EtcdAnswer, StoreError> {
        let until = self.after(Duration::from_secs(CALL_SECONDS))?;
        self.ask_until(asked, until)
    }

    // The same, until this moment at most.
    pub(crate) fn ask_until(
        &mut self,
        asked: &EtcdCall<'_>,
        until: Deadline,
    ) -> Result<EtcdAnswer, StoreError> {
        let mut worst = StoreError::Unreachable;
        for round in 0..asked.rounds() {
            if round > 0 && !self.rest(asked, until) {
                break;
            }
            match self.ask_all(asked, until) {
                Err(error) if !is_final(error) => worst = more_telling(worst, error),
                done => return done,
            }
        }
        Err(worst)
    }

    // Rests before another round, if it is one for changes. Tells whether there is time for that.
    fn rest(&self, asked: &EtcdCall<'_>, until: Deadline) -> bool {
        let rest = Duration::from_millis(REST_MILLIS);
        match until.left(&self.net) {
            Ok(left) if matches!(asked, EtcdCall::Commit(..)) => {
                sleep(&self.net, rest.min(left));
                true
            }
            Ok(_) => true,
            Err(_) => false,
        }
    }

    // Asks each endpoint once, until one answers.
    fn ask_all(&mut self, asked: &EtcdCall<'_>, until: Deadline) -> Result<EtcdAnswer, StoreError> {
        let mut worst = StoreError::Unreachable;
        let count = u32::try_from(self.hosts.len()).unwrap_or(u32::MAX);
        for asked_before in 0..count {
            let left = match until.left(&self.net) {
                Ok(left) => left,
                Err(_) => break,
            };
            let share = share_of(left, count - asked_before);
            match self.ask_here(asked, share) {
                Err(error) if !is_final(error) => worst = more_telling(worst, error),
                done => return done,
            }
            self.turn();
        }
        Err(worst)
    }

    // The next endpoint is asked from now on.
    fn turn(&mut self) {
        self.stream = None;
        self.at = self.at.wrapping_add(1);
        if self.at >= self.hosts.len() {
            self.at = 0;
        }
    }

    // What this endpoint tells.
    fn ask_here(
        &mut self,
        asked: &EtcdCall<'_>,
        limit: Duration,
    ) -> Result<EtcdAnswer, StoreError> {
        let alloc = self.net.alloc();
        let until = Deadline::after(&self.net, limit)?;
        let request = asked.write(alloc, host_at(&self.hosts, self.at)?)?;
        match self.send(&request, until)? {
            Arrival::Answer(answer) => {
                self.has_answered = true;
                Ok(asked.read(alloc, &body_of(alloc, answer)?)?)
            }
            Arrival::Nothing if self.has_answered => Err(StoreError::Unanswered),
            Arrival::Nothing => Err(self.why_nothing()),
        }
    }

    // Sends a request's bytes, and tells what comes.
    fn send(&mut self, request: &[u8], until: Deadline) -> Result<Arrival, StoreError> {
        let mut stream = self.connection(until)?;
        let received = exchange(&self.net, &mut stream, request, until)?;
        self.stream = Some(stream);
        Ok(received)
    }

    // The connection to this endpoint, or a new one where it has ended.
    fn connection(&mut self, until: Deadline) -> Result<TcpStream, StoreError> {
        let host = host_at(&self.hosts, self.at)?;
        match self.stream.take() {
            Some(stream) if is_open(&stream) => Ok(stream),
            _ => connect(&self.net, host.text.as_str(), until),
        }
    }

    // Why this endpoint ends connections without a byte.
    fn why_nothing(&self) -> StoreError {
        match self.speaks_tls() {
            Ok(true) => StoreError::TlsWanted,
            _ => StoreError::Unanswered,
        }
    }

    // Checks whether this endpoint speaks TLS.
    fn speaks_tls(&self) -> Result<bool, StoreError> {
        let until = self.after(Duration::from_millis(TLS_MILLIS))?;
        let host = host_at(&self.hosts, self.at)?;
        speaks_tls(&self.net, host.text.as_str(), until)
    }

    // The number of a new lease of so many seconds.
    pub(crate) fn grant(&mut self, seconds: u64) -> Result<u64, StoreError> {
        match self.ask(&EtcdCall::Grant(seconds))? {
            EtcdAnswer::Lease(lease) => Ok(lease.number),
            _ => Err(StoreError::Unanswered),
        }
    }

    // A lease that goes on, until this moment.
    pub(crate) fn keep_alive(&mut self, lease: u64, until: Deadline) -> Result<Lease, StoreError> {
        match self.ask_until(&EtcdCall::KeepAlive(lease), until)? {
            EtcdAnswer::Lease(lease) => Ok(lease),
            _ => Err(StoreError::Unanswered),
        }
    }

    // Whether changes were made, where a key holds what is expected.
    pub(crate) fn commit(
        &mut self,
        key: &[u8],
        expected: Expected<'_>,
        changes: &[KeyChange<'_>],
    ) -> Result<Committed, StoreError> {
        match self.ask(&EtcdCall::Commit(key, expected, changes))? {
            EtcdAnswer::Committed(committed) => Ok(committed),
            _ => Err(StoreError::Unanswered),
        }
    }

    // These keys, so many at most, as they stood at this revision, without their values.
    pub(crate) fn names(
        &mut self,
        keys: &Keys,
        most: u64,
        revision: u64,
    ) -> Result<Found, StoreError> {
        self.find(&EtcdCall::Names(keys, most, revision))
    }

    // The same with their values.
    pub(crate) fn values(
        &mut self,
        keys: &Keys,
        most: u64,
        revision: u64,
    ) -> Result<Found, StoreError> {
        self.find(&EtcdCall::Values(keys, most, revision))
    }

    // The same as they stand now, until this moment.
    pub(crate) fn values_until(
        &mut self,
        keys: &Keys,
        most: u64,
        until: Deadline,
    ) -> Result<Found, StoreError> {
        found_in(self.ask_until(&EtcdCall::Values(keys, most, 0), until)?)
    }

    // The keys that are asked for.
    fn find(&mut self, asked: &EtcdCall<'_>) -> Result<Found, StoreError> {
        found_in(self.ask(asked)?)
    }
}

// The keys that were found.
fn found_in(told: EtcdAnswer) -> Result<Found, StoreError> {
    match told {
        EtcdAnswer::Found(found) => Ok(found),
        _ => Err(StoreError::Unanswered),
    }
}

// One of so many, by chance.
fn chosen<R: RandomSource>(source: &R, count: usize) -> usize {
    let mut bits = [0u8; 4];
    if source.fill_bytes(&mut bits).is_err() {
        return 0;
    }
    let number = u32::from_le_bytes(bits) as usize;
    number.checked_rem(count).unwrap_or(0)
}

// The body of an answer that says that all is well, or why it says otherwise.
fn body_of(alloc: Global, answer: Answer) -> Result<Vec<u8>, StoreError> {
    if answer.status == 200 {
        return Ok(answer.body);
    }
    let refusal = read_refused(alloc, &answer.body)?;
    Err(error_of(refusal))
}

// The endpoint of this number.
fn host_at(hosts: &[Host], at: usize) -> Result<&Host, StoreError> {
    hosts.get(at).ok_or(StoreError::Unreachable)
}
