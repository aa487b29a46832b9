//! Random runs of calls, faults, crashes and openings.
ghost use Rattle.std.specs.Prelude.{◌≤◌, ◌<◌};

use crate::plain::{Found, MANY_KINDS, MOST, Move, Plain, installed_list};
use crate::plain_files::piece_of;
use cm_disk::MemDisk;
use cm_library::Library;
use library_cases::calls::{Answer, Call, answered};
use library_cases::file_cases::{has_abc, has_empty, has_hello};
use library_cases::libraries::{add_first, empty_on};
use std::alloc::Global;
use std::test::Fail;

/// A linear congruential generator.
#[derive(Drop)]
struct Dice {
    seed: u32,
}

impl Dice {
    fn roll(&mut self, sides: u32) -> u32
        requires { 1 ≤ sides }
        ensures { result < sides }
    {
        let next = u64::from(self.seed) * 1_103_515_245 + 12_345;
        self.seed = (next % 4_294_967_296) as u32;
        (self.seed >> 8) % sides
    }

    // A version with an unfinished job, or one that is there, or one without either: the first from a random one on.
    fn version(&mut self, plain: &Plain, sort: Sort) -> usize {
        let from = self.roll(MOST as u32) as usize % MOST;
        for step in 0..MOST {
            let slot = plain.slots[(from + step) % MOST];
            let is = match sort {
                Sort::Job => slot.job != 0,
                Sort::There => slot.is_there,
                Sort::Free => slot.job == 0 && !slot.is_there,
            };
            if is {
                return (from + step) % MOST;
            }
        }
        from
    }

    // A job at random, at times one that is not there.
    fn job(&mut self, plain: &Plain) -> u64 {
        let at = self.version(plain, Sort::Job) % MOST;
        match plain.slots[at].job {
            0 => plain.next,
            _ if self.roll(16) == 0 => plain.next,
            job => job,
        }
    }

    fn choose(&mut self, plain: &Plain) -> Move {
        let at = self.roll(MOST as u32) as usize;
        let kind = self.roll(MANY_KINDS as u32) as usize;
        match self.roll(24) {
            0 => Move::Begin(at, kind),
            1..=2 => Move::Begin(self.version(plain, Sort::Free), kind),
            3..=4 => Move::Finish(self.job(plain)),
            5 => Move::Drop(self.job(plain)),
            6 => Move::Remove(at),
            7..=8 => Move::Remove(self.version(plain, Sort::There)),
            9..=18 => self.go_on(plain),
            _ => self.choose_file(plain),
        }
    }

    // A call on the files of a job.
    fn choose_file(&mut self, plain: &Plain) -> Move {
        let job = self.job(plain);
        let hash = self.roll(3) as usize;
        match self.roll(8) {
            0..=2 => Move::Start(job, hash),
            3 => Move::Put(job, u64::from(self.roll(3)), b"l"),
            4 => Move::Seal(job),
            5 => Move::Salvage(job, hash),
            6 => Move::Wanted(job, Some(hash)),
            _ => Move::GiveUp(job),
        }
    }

    // A call by which a job that has started a file goes on with it, or at times another one starts a file that it wants.
    fn go_on(&mut self, plain: &Plain) -> Move {
        let from = self.roll(MOST as u32) as usize % MOST;
        let is_other = self.roll(8) == 0;
        for step in 0..MOST {
            let slot = plain.slots[(from + step) % MOST];
            if let (Some(hash), false) = (slot.started, is_other) {
                return self.put(plain, slot.job, hash);
            }
        }
        self.start(plain)
    }

    fn start(&mut self, plain: &Plain) -> Move {
        let at = self.version(plain, Sort::Job);
        let hash = self.roll(3) as usize;
        for step in 0..3usize {
            if plain.wants(at, hash + step) {
                return Move::Start(plain.slots[at % MOST].job, (hash + step) % 3);
            }
        }
        Move::Wanted(self.job(plain), None)
    }

    // The next piece of a file, of 1 or 2 bytes, at times another one or a look at it; and the seal behind the last.
    fn put(&mut self, plain: &Plain, job: u64, hash: usize) -> Move {
        let Found::Bytes(_, count) = plain.places[hash % 3].found else {
            return Move::GiveUp(job);
        };
        let piece = piece_of(hash, count, self.roll(2) as usize + 1);
        match self.roll(16) {
            0 => Move::Seal(job),
            1 => Move::Put(job, count as u64, b"x"),
            2 => Move::Put(job, (count as u64).saturating_add(1), piece),
            3 => Move::Salvage(job, hash),
            _ if piece.is_empty() => Move::Seal(job),
            _ => Move::Put(job, count as u64, piece),
        }
    }
}

// A version by what there is of it.
#[derive(Clone, Copy)]
enum Sort {
    Job,
    There,
    Free,
}

// A library in a run, as it is and as a plain list.
#[derive(Drop)]
struct Run {
    library: Library<MemDisk>,
    plain: Plain,
}

fn opened(alloc: Global, disk: MemDisk) -> Option<Library<MemDisk>> {
    let mut disk = disk;
    for _try in 0..32u32 {
        match Library::open(alloc, disk) {
            Ok(library) => return Some(library),
            Err((back, _)) => disk = back,
        }
    }
    None
}

// Whether a disk has the files of all versions.
fn has_files(disk: &mut MemDisk, plain: &Plain) -> Option<bool> {
    Some(
        (!plain.is_in_version(0) || has_hello(disk)?)
            && (!plain.is_in_version(1) || has_abc(disk)?)
            && (!plain.is_in_version(2) || has_empty(disk)?),
    )
}

// The library of an image, and which of two lists it tells. Each version has its files.
fn imaged(alloc: Global, disk: MemDisk, plain: &Plain, after: &Plain) -> Option<Run> {
    let library = opened(alloc, disk)?;
    let found = if after.is_told(&library) {
        *after
    } else if plain.is_told(&library) {
        *plain
    } else {
        return None;
    };
    let mut disk = library.close();
    if !has_files(&mut disk, &found)? {
        return None;
    }
    Some(Run {
        library: opened(alloc, disk)?,
        plain: found.crashed().opened(),
    })
}

// Each image opens to one of two lists, or to one. The run goes on with one of the images.
fn crashed(alloc: Global, dice: &mut Dice, run: Run, after: Plain) -> Option<Run> {
    let Run { library, plain } = run;
    let disk = library.close();
    for pick in 0..3u8 {
        let _image = imaged(alloc, disk.crash(pick).ok()?, &plain, &after)?;
    }
    imaged(alloc, disk.crash(dice.roll(3) as u8).ok()?, &plain, &after)
}

// Settling tells whether the list is the one from before a failed call or the one after.
fn settled(run: Run, after: Plain) -> Option<Run> {
    let mut run = run;
    for _try in 0..32u32 {
        match run.library.settle() {
            Ok(None) => return run.plain.is_told(&run.library).then_some(run),
            Ok(Some(_)) => {
                run.plain = after;
                return run.plain.is_told(&run.library).then_some(run);
            }
            Err(_) => {}
        }
    }
    None
}

// A call on a job's files settles a failed call first. Where the disk fails it too, its job has no started file once that is
// given up, and its place may have anything.
fn goes_on(alloc: Global, dice: &mut Dice, run: Run, after: Plain) -> Option<Run> {
    let mut run = run;
    let next = dice.choose_file(&run.plain);
    if let Move::GiveUp(_) = next {
        return settled(run, after);
    }
    let answer = answered(alloc, &mut run.library, next.call())?;
    if answer == Answer::Disk {
        return failed_twice(alloc, run, after, next);
    }
    if after.is_told(&run.library) {
        run.plain = after;
    }
    let (then, wanted) = run.plain.moved(next, answer == Answer::Is(true));
    run.plain = then;
    (answer == wanted && then.is_told(&run.library)).then_some(run)
}

fn failed_twice(alloc: Global, run: Run, after: Plain, next: Move) -> Option<Run> {
    let mut run = run;
    if let Some(job) = next.writer() {
        let _had = answered(alloc, &mut run.library, Call::GiveUp(job))?;
    }
    run.plain = run.plain.failed_or_not(next);
    let after = after.failed_or_not(next);
    if after.is_told(&run.library) {
        run.plain = after;
    }
    settled(run, after)
}

// The disk failed the call: the list is told as before, and settling tells whether it is the one after.
fn failed(alloc: Global, dice: &mut Dice, run: Run, after: Plain) -> Option<Run> {
    if !run.plain.is_told(&run.library) {
        return None;
    }
    match dice.roll(3) {
        0 => crashed(alloc, dice, run, after),
        1 => settled(run, after),
        _ => goes_on(alloc, dice, run, after),
    }
}

// One call, and at times a crash or an opening behind it.
fn stepped(alloc: Global, dice: &mut Dice, run: Run) -> Option<Run> {
    let mut run = run;
    let next = dice.choose(&run.plain);
    let answer = answered(alloc, &mut run.library, next.call())?;
    let (after, wanted) = run.plain.moved(next, answer == Answer::Is(true));
    if answer == Answer::Disk {
        if !matches!(wanted, Answer::Done | Answer::Begun(_) | Answer::Is(_)) {
            return None;
        }
        run.plain = run.plain.failed(next);
        let after = if next.is_on_rows() { after } else { run.plain };
        return failed(alloc, dice, run, after);
    }
    run.plain = after;
    if answer != wanted || !run.plain.is_told(&run.library) {
        return None;
    }
    turned(alloc, dice, run)
}

fn turned(alloc: Global, dice: &mut Dice, run: Run) -> Option<Run> {
    let after = run.plain;
    match dice.roll(80) {
        0 => crashed(alloc, dice, run, after),
        1..=3 => Some(Run {
            library: opened(alloc, run.library.close())?,
            plain: after.opened(),
        }),
        _ => Some(run),
    }
}

// A library that has version 1, on a disk that fails at some calls behind that.
fn begun(alloc: Global, dice: &mut Dice) -> Option<Run> {
    let mut failing = Vec::new(alloc);
    for _listed in 0..24u32 {
        failing.push(u64::from(dice.roll(1000)) + 60).ok()?;
    }
    let mut library = empty_on(alloc, MemDisk::new(alloc, failing).ok()?).ok()?;
    add_first(alloc, &mut library).then_some(Run {
        library,
        plain: installed_list(),
    })
}

// The number of the first step that goes otherwise, or how many there are.
fn steps(alloc: Global, dice: &mut Dice, most: u32) -> u32 {
    let Some(first) = begun(alloc, dice) else {
        return 0;
    };
    let mut run = first;
    for step in 0..most {
        match stepped(alloc, dice, run) {
            Some(next) => run = next,
            None => return step,
        }
    }
    most
}

#[test]
fn go_as_a_plain_list(rt: HostRuntime) -> Result<(), Fail> {
    let mut dice = Dice { seed: 19 };
    for _run in 0..40u32 {
        assert_eq!(rt; steps(rt.alloc(), &mut dice, 80), 80);
    }
    Ok(())
}
