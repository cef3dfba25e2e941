// Several clients that edit at seats of one room at once.
ghost use Rattle.std.specs.Prelude.{◌≡◌, ◌<◌, ◌≤◌, ℕ, All, IfOk, IsSome, List, length, map, slice_index_or};
ghost use Rattle.canvas_model.specs.Local as local;
ghost use Rattle.canvas_threads.specs.Shown.{Ends, HasFollowed, ShowsPlan, ShowsTheRoom};
ghost use Rattle.canvas_threads.specs.Worked.{Beside, HasWorked};

use crate::hall::Hall;
use crate::listening::listen;
use crate::node::SeatNode;
use crate::{Gate, Plan};
use canvas_board::RoomName;
use canvas_client::{Client, EditRequest};
use canvas_desk::SubmitError;
use canvas_journal::Keeper;
use canvas_room::{Lock, Room, Seat};
use room_handler::SeatLink;
use std::alloc::{AllocError, Global};
use std::sync::Wait;
use std::thread::{Threads, map_vec};

/// Runs a node for each of these lists of edits, on a thread of its own at a seat of the room: it joins, makes its edits, and exchanges
/// after each between two calls of the gate. While another node makes edits, it then hears what is published, and waits for more. Once all
/// have ended, each exchanges once more, so its client reads up to the room's last version. Returns the clients, in the order of the
/// lists.
///
/// Each client has made all edits of its list that it didn't refuse. If nobody else made an edit under its id, nothing waits at it, its
/// edits stand in the room's history, each once, and it shows the room's document as its seat has seen it.
///
/// What its client refuses a node passes over, without a call of the gate. An edit that was judged before counts as done. A client
/// that others use too takes no entry which isn't its own, and stays where it is. If no thread can be made, nodes run one after
/// the other.
///
/// The error is that of the first node, in the order of the lists, that had one: those of `Seat::submit` but for Repeat and Owed, where
/// a Gap tells the number of the last edit that the client knows to be judged; `NotKept(Failed)` where the room has ended;
/// `NotKept(Memory)` if memory runs out besides. What was submitted stays.
pub fn run_nodes<K, N, Q, R, G>(
    rt: &R,
    _room: &Room<K, N, Q>,
    seats: Vec<Seat<N, Lock<K, N, Q>>>,
    work: Vec<Vec<EditRequest>>,
    gate: &G,
) -> Result<Vec<Client>, SubmitError>
where
    K: Keeper + Drop + Send,
    N: RoomName + Send + Sync,
    Q: Wait + Drop + Send,
    R: Threads + Wait + AllocGlobal + Clone + Sync + Drop,
    G: Gate + Sync,
    requires { length work.items ≤ length seats.items }
    ensures worked { IfOk result (λ clients. Beside HasWorked (map (λ edits. length edits.items) work.items) clients.items) }
    ensures shows { IfOk result (λ clients. Beside (ShowsTheRoom N.opening) (map (λ edits. edits.items) work.items) clients.items) }
{
    run_plans(rt, seats, work, gate)
}

/// Runs a node for each of these plans, as `run_nodes` does for lists of edits. What a plan asks for is known once the node's client has
/// joined, so that it can name objects that the client makes.
///
/// The error is as that of `run_nodes`.
pub fn run_plans<K, N, Q, R, P, G>(
    rt: &R,
    seats: Vec<Seat<N, Lock<K, N, Q>>>,
    plans: Vec<P>,
    gate: &G,
) -> Result<Vec<Client>, SubmitError>
where
    K: Keeper + Drop + Send,
    N: RoomName + Send + Sync,
    Q: Wait + Drop + Send,
    R: Threads + Wait + AllocGlobal + Clone + Sync + Drop,
    P: Plan + Send,
    G: Gate + Sync,
    requires { length plans.items ≤ length seats.items }
    ensures { IfOk result (λ clients. Beside (ShowsPlan N.opening P.asks) plans.items clients.items) }
{
    let alloc = rt.alloc();
    let nodes = run_all(alloc, rt, seats, plans, gate)?;
    finish_all(alloc, rt, nodes)
}

// A node's seat in a room. What is sent to threads is generic in it, since the type of a seat is large.
trait Site: Drop {
    ghost use Rattle.std.specs.Prelude.{List};
    ghost use Rattle.canvas_model.specs.Client as client;
    ghost use Rattle.canvas_model.specs.Local as local;

    // That a client has made what these requests ask for, and follows what the seat has seen.
    ghost follows: { List local.EditRequest → Self → client.Client → Type 0 };

    // That it shows what the seat has seen in the end.
    ghost shows: { List local.EditRequest → client.Client → Type 0 };

    // Has a client join, make the edits of a plan, and hear what others publish while they make theirs. The errors are those of
    // `SeatNode` and `listen`.
    fn work<W: Wait + Clone + Drop, P: Plan, G: Gate>(
        self,
        alloc: Global,
        rt: &W,
        plan: P,
        gate: &G,
        hall: &Hall,
        number: u64,
    ) -> Result<(Client, Self), SubmitError>
        ensures { IfOk result (λ done. HasFollowed P.asks follows plan done.1 done.0) };

    // Has a client exchange once more. The errors are those of `SeatNode`.
    fn finish<W: Wait + Clone + Drop>(
        self,
        alloc: Global,
        rt: &W,
        client: Client,
    ) -> Result<Client, SubmitError>
        requires { IsSome client.id }
        ensures same { IfOk result (λ ended. ended.id ≡ client.id) }
        ensures shows { IfOk result (λ ended. (requests : List local.EditRequest) → follows requests self client → shows requests ended) };
}

impl<K: Keeper + Drop, N: RoomName, Q: Wait + Drop> Site for Seat<N, Lock<K, N, Q>> {
    ghost use Rattle.canvas_threads.specs.Shown.{FollowsRoom, ShowsTheRoom};

    ghost follows = { FollowsRoom N.opening };

    ghost shows = { ShowsTheRoom N.opening };

    fn work<W: Wait + Clone + Drop, P: Plan, G: Gate>(
        self,
        alloc: Global,
        rt: &W,
        plan: P,
        gate: &G,
        hall: &Hall,
        number: u64,
    ) -> Result<(Client, Self), SubmitError> {
        let at_work = hall.work();
        let link = SeatLink::new(alloc, rt.clone()?, self);
        let mut node = SeatNode::join(alloc, link)?;
        hall.ring(node.client.version());
        let Some(id) = node.client.id() else {
            unreachable!()
        };
        let edits = plan.edits(alloc, id)?;
        node.make_all(alloc, &edits, gate, hall, number)?;
        drop(at_work);
        let SeatNode { link, mut client } = node;
        let mut seat = link.into_seat();
        listen(alloc, rt, &mut client, &mut seat, hall, number)?;
        Ok((client, seat))
    }

    fn finish<W: Wait + Clone + Drop>(
        self,
        alloc: Global,
        rt: &W,
        client: Client,
    ) -> Result<Client, SubmitError> {
        let link = SeatLink::new(alloc, rt.clone()?, self);
        let mut node = SeatNode { link, client };
        node.exchange(alloc)?;
        let SeatNode { link: _, client } = node;
        Ok(client)
    }
}

// What one node is given: its number, its place, and its plan.
#[derive(Drop)]
struct Job<S: Drop, P: Drop> {
    number: u64,
    site: S,
    plan: P,
}

// A client whose node has ended, and its place.
#[derive(Drop)]
struct Done<S: Drop> {
    client: Client,
    site: S,
}

// Runs a node for each plan, on a thread and a place of its own. The error is that of the first that had one.
fn run_all<S, R, P, G>(
    alloc: Global,
    rt: &R,
    sites: Vec<S>,
    plans: Vec<P>,
    gate: &G,
) -> Result<Vec<Done<S>>, SubmitError>
where
    S: Site + Send + Drop,
    R: Threads + Wait + Clone + Sync + Drop,
    P: Plan + Send,
    G: Gate + Sync,
    requires { length plans.items ≤ length sites.items }
    ensures { IfOk result (λ all. Beside (λ plan done. HasFollowed P.asks S.follows plan done.site done.client) plans.items all.items) }
{
    let hall = Hall::new(alloc, plans.len())?;
    let jobs = jobs_of(alloc, sites, plans)?;
    let ended = run_each(alloc, rt, jobs, gate, &hall)?;
    all_done(alloc, ended)
}

// The job of each plan. Errors: out of memory.
fn jobs_of<S: Drop, P: Drop>(
    alloc: Global,
    sites: Vec<S>,
    plans: Vec<P>,
) -> Result<Vec<Job<S, P>>, AllocError>
    requires { length plans.items ≤ length sites.items }
    ensures { IfOk result (λ jobs. map (λ job. job.plan) jobs.items ≡ plans.items) }
{
    let mut jobs = Vec::with_capacity(alloc, plans.len())?;
    let mut sites = sites.into_iter();
    let mut number = 0u64;
    for plan in plans {
        let Some(site) = sites.next() else {
            unreachable!()
        };
        number += 1;
        jobs.push(Job { number, site, plan })?;
    }
    Ok(jobs)
}

// What becomes of each job, on a thread of its own. Errors: out of memory.
fn run_each<S, R, P, G>(
    alloc: Global,
    rt: &R,
    jobs: Vec<Job<S, P>>,
    gate: &G,
    hall: &Hall,
) -> Result<Vec<Result<Done<S>, SubmitError>>, AllocError>
where
    S: Site + Send + Drop,
    R: Threads + Wait + Clone + Sync + Drop,
    P: Plan + Send,
    G: Gate + Sync,
    ensures len { IfOk result (λ ended. length ended.items ≡ length jobs.items) }
    ensures each { IfOk result (λ ended. (i : ℕ) (job : _) (done : _) → i < length jobs.items → IfOk (slice_index_or ended.items i done) (λ d. HasFollowed P.asks S.follows (slice_index_or jobs.items i job).plan d.site d.client)) }
{
    map_vec(rt, jobs, &|job| run(alloc, rt, job, gate, hall))
}

// Has a client join at a job's seat, make what its plan asks for, and hear what others publish.
fn run<S: Site + Drop, W: Wait + Clone + Drop, P: Plan, G: Gate>(
    alloc: Global,
    rt: &W,
    job: Job<S, P>,
    gate: &G,
    hall: &Hall,
) -> Result<Done<S>, SubmitError>
    ensures { IfOk result (λ done. HasFollowed P.asks S.follows job.plan done.site done.client) }
{
    let Job { number, site, plan } = job;
    let (client, site) = site.work(alloc, rt, plan, gate, hall, number)?;
    Ok(Done { client, site })
}

// What is done, or the error of the first that had one.
fn all_done<S: Drop>(
    alloc: Global,
    ended: Vec<Result<Done<S>, SubmitError>>,
) -> Result<Vec<Done<S>>, SubmitError>
    ensures { IfOk result (λ all. map Ok all.items ≡ ended.items) }
{
    let mut all = Vec::with_capacity(alloc, ended.len())?;
    for done in ended {
        all.push(done?).map_err(|_| AllocError)?;
    }
    Ok(all)
}

// The clients, once each has exchanged once more.
fn finish_all<S: Site + Drop, W: Wait + Clone + Drop>(
    alloc: Global,
    rt: &W,
    all: Vec<Done<S>>,
) -> Result<Vec<Client>, SubmitError>
    requires { All (λ done. IsSome done.client.id) all.items }
    ensures { IfOk result (λ clients. Beside (λ done client. Ends S.follows S.shows done.site done.client client) all.items clients.items) }
{
    let mut clients = Vec::with_capacity(alloc, all.len())?;
    for done in all {
        let Done { client, site } = done;
        let client = site.finish(alloc, rt, client)?;
        clients.push(client).map_err(|_| AllocError)?;
    }
    Ok(clients)
}
