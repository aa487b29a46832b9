//! A tally, worked on by several seats in one thread and in many.
ghost use Rattle.std.specs.Prelude.{◌≡◌, ◌<◌, ◌+◌};

use crate::workers::add_and_read;
use crate::{Entry, Tally, run};
use cm_turn::{Seat, Turnstile};
use std::sync::Wait;
use std::test::Fail;

/// How many turns with an entry each worker takes.
const TURNS: u64 = 1000;

/// Whether each of so many workers has each of its entries once, in its order, and no other entry is there.
fn is_complete(told: &[Entry], workers: usize) -> bool {
    let mut counts = [0; 16];
    for entry in told {
        let Some(count) = counts.get_mut(entry.worker as usize) else {
            return false;
        };
        if *count != entry.number {
            return false;
        }
        *count = count.saturating_add(1);
    }
    for (worker, count) in counts.iter().enumerate() {
        let want = if worker < workers { TURNS } else { 0 };
        if *count != want {
            return false;
        }
    }
    true
}

fn entry(worker: u64, number: u64) -> Entry {
    Entry { worker, number }
}

/// A seat that was split off takes over another one, so that it can be split itself.
fn split_and_joined<R: Wait>(
    rt: &R,
    turnstile: &Turnstile<Tally>,
    first: &mut Seat<Tally>,
) -> (Seat<Tally>, bool)
    requires here { first.old.at ≡ turnstile.now }
    requires parts { 2 < first.old.view.parts }
    ensures here { (first.new.at ≡ first.old.at) × (result.0.at ≡ first.old.at) }
    ensures parts { (first.new.view.parts + 2 ≡ first.old.view.parts) × (result.0.view.parts ≡ 2) }
{
    let mut second = turnstile.split(first);
    let mut third = turnstile.split(first);
    let early = add_and_read(rt, turnstile, &mut third, entry(2, 0));
    let late = add_and_read(rt, turnstile, &mut second, entry(1, 0));
    turnstile.join(&mut second, third);
    (second, early & late)
}

/// The seat that was split off last takes over the first one.
fn joined_by_the_last<R: Wait>(
    rt: &R,
    turnstile: &Turnstile<Tally>,
    first: Seat<Tally>,
    mut second: Seat<Tally>,
) -> (Seat<Tally>, bool)
    requires here { (first.at ≡ turnstile.now) × (second.at ≡ turnstile.now) }
    requires parts { (1 < second.view.parts) × (first.view.parts + second.view.parts ≡ 64) }
    ensures here { result.0.at ≡ turnstile.now }
    ensures parts { result.0.view.parts ≡ 64 }
{
    let mut last = turnstile.split(&mut second);
    let shown = add_and_read(rt, turnstile, &mut last, entry(3, 0));
    turnstile.join(&mut last, first);
    turnstile.join(&mut last, second);
    (last, shown)
}

#[test]
fn seats_are_split_and_joined_in_any_order(rt: HostRuntime) -> Result<(), Fail> {
    let tally = Tally::new(rt.alloc(), 7);
    let Ok((turnstile, mut first)) = Turnstile::new(rt.alloc(), tally) else {
        return Err(Fail::new("no memory"));
    };
    let (second, early) = split_and_joined(&rt, &turnstile, &mut first);
    let (last, late) = joined_by_the_last(&rt, &turnstile, first, second);
    let tally = turnstile.close(last);
    assert!(rt; early && late);
    assert_eq!(rt; tally.name(), 7);
    assert_eq!(rt;
        tally.told(),
        [entry(2, 0), entry(1, 0), entry(3, 0)].as_slice()
    );
    Ok(())
}

#[test]
fn threads_add_each_entry_once_and_in_order(rt: HostRuntime) -> Result<(), Fail> {
    for workers in [2, 16] {
        let Ok((tally, shown)) = run(&rt, rt.alloc(), workers, TURNS) else {
            return Err(Fail::new("no memory"));
        };
        assert_eq!(rt; shown, workers * TURNS);
        assert!(rt; is_complete(tally.told(), workers as usize));
    }
    Ok(())
}
