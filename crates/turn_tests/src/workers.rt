//! Workers, each with a seat of its own, in threads.
ghost use Rattle.std.specs.Prelude.{◌≡◌, ◌+◌, ◌<◌, ℕ, All, length, vec_len, slice_index_or};
ghost use Rattle.turn_tests.specs.Seats.{StaysSeated};
ghost use Rattle.turn_tests.specs.declared.workers.Worker.{Worker as Row};

use crate::tally::{Entry, Tally};
use crate::turns::{add, at};
use cm_turn::{Seat, Told, Turnstile};
use std::alloc::{AllocError, AllocFailed, Global};
use std::sync::Wait;
use std::thread;
use std::thread::Threads;

/// A seat with a number, how many turns it is to take, and how many of its reads have shown its entry so far. A seat
/// alone has no bytes.
pub struct Worker<T: Told> {
    pub number: u64,
    pub turns: u64,
    pub shown: u64,
    pub seat: Seat<T>,
}

// Adds an entry, and reads at its place in a later turn of the same seat. Whether that read shows the entry.
pub(crate) fn add_and_read<R: Wait>(
    rt: &R,
    turnstile: &Turnstile<Tally>,
    seat: &mut Seat<Tally>,
    entry: Entry,
) -> bool
    requires here { seat.old.at ≡ turnstile.now }
    ensures stays { StaysSeated seat.old seat.new }
{
    match add(rt, turnstile, seat, entry) {
        Ok(place) => at(rt, turnstile, seat, place) == Some(entry),
        Err(_) => false,
    }
}

// All turns of one worker, each with an entry, and a read after each.
fn work<R: Wait>(rt: &R, turnstile: &Turnstile<Tally>, worker: &mut Worker<Tally>)
    requires here { worker.old.seat.at ≡ turnstile.now }
    ensures stays { StaysSeated worker.old.seat worker.new.seat }
{
    for number in 0..worker.turns {
        let entry = Entry {
            worker: worker.number,
            number,
        };
        if add_and_read(rt, turnstile, &mut worker.seat, entry) {
            worker.shown = worker.shown.saturating_add(1);
        }
    }
}

/// Each worker takes its turns, in so many threads. Each stays at its seat.
pub fn work_all<R: Threads + Wait + Sync>(
    rt: &R,
    turnstile: &Turnstile<Tally>,
    workers: &mut [Worker<Tally>],
    threads: usize,
)
    requires here { All (λ w. w.seat.at ≡ turnstile.now) workers.old }
    requires threads { 0 < threads }
    ensures length { length workers.new ≡ length workers.old }
    ensures stay { (i : ℕ) (d : Row _ _ _) → i < length workers.old → StaysSeated (slice_index_or workers.old i d).seat (slice_index_or workers.new i d).seat }
{
    thread::for_each_mut(
        rt,
        workers,
        threads,
        &|_, worker: &mut Worker<Tally>|
            requires { worker.now.seat.at ≡ turnstile.now }
            ensures { StaysSeated worker.entry.now.seat worker.exit.now.seat }
        { work(rt, turnstile, worker) },
    );
}

/// A worker for each number below the count, each with one part of the seat. Fewer where memory runs out.
pub fn hired(
    alloc: Global,
    turnstile: &Turnstile<Tally>,
    seat: &mut Seat<Tally>,
    count: u64,
    turns: u64,
) -> Vec<Worker<Tally>>
    requires here { seat.old.at ≡ turnstile.now }
    requires parts { count < seat.old.view.parts }
    ensures here { seat.new.at ≡ seat.old.at }
    ensures parts { seat.new.view.parts + vec_len result ≡ seat.old.view.parts }
    ensures each { All (λ w. (w.seat.at ≡ turnstile.now) × (w.seat.view.parts ≡ 1)) result.items }
{
    let mut workers = Vec::new(alloc);
    for number in 0..count {
        let worker = Worker {
            number,
            turns,
            shown: 0,
            seat: turnstile.split(seat),
        };
        if let Err(failed) = workers.push(worker) {
            let AllocFailed { value } = failed;
            take_back(turnstile, seat, value);
            return workers;
        }
    }
    workers
}

/// The seats of all workers are joined. How many of their reads have shown their entry.
pub fn dismissed(
    turnstile: &Turnstile<Tally>,
    seat: &mut Seat<Tally>,
    mut workers: Vec<Worker<Tally>>,
) -> u64
    requires here { seat.old.at ≡ turnstile.now }
    requires each { All (λ w. (w.seat.at ≡ turnstile.now) × (w.seat.view.parts ≡ 1)) workers.items }
    ensures here { seat.new.at ≡ seat.old.at }
    ensures parts { seat.new.view.parts ≡ seat.old.view.parts + vec_len workers }
{
    let mut shown = 0_u64;
    while let Some(worker) = workers.pop() {
        shown = shown.saturating_add(take_back(turnstile, seat, worker));
    }
    workers.destroy_empty();
    shown
}

// The worker's seat is joined. How many of its reads have shown their entry.
fn take_back(turnstile: &Turnstile<Tally>, seat: &mut Seat<Tally>, worker: Worker<Tally>) -> u64
    requires here { (seat.old.at ≡ turnstile.now) × (worker.seat.at ≡ turnstile.now) }
    ensures here { seat.new.at ≡ turnstile.now }
    ensures parts { seat.new.view.parts ≡ seat.old.view.parts + worker.seat.view.parts }
{
    let Worker {
        number: _,
        turns: _,
        shown,
        seat: other,
    } = worker;
    turnstile.join(seat, other);
    shown
}

/// So many workers, with so many turns each, at one tally: it comes back with how many of their reads have shown their entry.
///
/// # Errors
///
/// Where memory runs out before the first turn.
pub fn run<R: Threads + Wait + Sync>(
    rt: &R,
    alloc: Global,
    count: u64,
    turns: u64,
) -> Result<(Tally, u64), AllocError>
    requires count { (0 < count) × (count < 64) }
{
    let Ok((turnstile, mut seat)) = Turnstile::new(alloc, Tally::new(alloc, count)) else {
        return Err(AllocError);
    };
    let mut workers = hired(alloc, &turnstile, &mut seat, count, turns);
    work_all(rt, &turnstile, &mut workers, count as usize);
    let shown = dismissed(&turnstile, &mut seat, workers);
    Ok((turnstile.close(seat), shown))
}
