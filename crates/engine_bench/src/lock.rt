ghost use Rattle.std.specs.Prelude.{◌≡◌, ◌<◌};
ghost use Rattle.std.specs.List.{All};
ghost use Rattle.run_lock.specs.Passes.{IsFree};

use crate::tally::Tally;
use run_lock::{Pass, RunLock};
use std::alloc::{AllocError, Global};
use std::sync::{Mutex, Wait};
use std::thread;
use std::thread::Threads;

fn take_turns<R: Wait>(rt: &R, lock: &RunLock<Tally>, pass: &mut Pass<Tally>, turns: u64)
    requires { IsFree lock.now pass.old }
    ensures { IsFree lock.now pass.new }
{
    for _turn in 0..turns {
        let mut held = lock.take(rt, pass);
        let tally = held.value();
        tally.count();
        lock.put(pass, held);
    }
}

fn passes(
    alloc: Global,
    lock: &RunLock<Tally>,
    pass: &mut Pass<Tally>,
    threads: usize,
) -> Vec<Pass<Tally>>
    requires { IsFree lock.now pass.old }
    ensures team { All (λ p. IsFree lock.now p) result.items }
    ensures pass { IsFree lock.now pass.new }
{
    let mut team = Vec::new(alloc);
    for _thread in 0..threads {
        let Ok(other) = pass.split(lock) else {
            break;
        };
        if team.push(other).is_err() {
            break;
        }
    }
    team
}

/// How many turns are found where so many threads take so many each under the named lock.
pub fn under_named_lock<R: Threads + Wait + Sync>(
    rt: &R,
    alloc: Global,
    threads: usize,
    turns: u64,
) -> Result<u64, AllocError> {
    let (lock, mut pass) = match RunLock::new(alloc, 0, Tally::new()) {
        Ok(made) => made,
        Err(_) => return Err(AllocError),
    };
    let mut team = passes(alloc, &lock, &mut pass, threads);
    thread::for_each_mut(
        rt,
        team.as_mut_slice(),
        threads.max(1),
        &|_, pass| { take_turns(rt, &lock, pass, turns) },
    );
    Ok(lock.close(rt, pass).turns)
}

fn take_turns_in_mutex<R: Wait>(rt: &R, mutex: &Mutex<Tally>, turns: u64) {
    for _turn in 0..turns {
        mutex.lock(rt).count();
    }
}

/// How many turns are found where so many threads take so many each under std's mutex.
pub fn under_mutex<R: Threads + Wait + Sync>(
    rt: &R,
    alloc: Global,
    threads: usize,
    turns: u64,
) -> Result<u64, AllocError> {
    let mutex = Mutex::new(Tally::new());
    let mut team = vec![in alloc; (); threads]?;
    thread::for_each_mut(
        rt,
        team.as_mut_slice(),
        threads.max(1),
        &|_, _| { take_turns_in_mutex(rt, &mutex, turns) },
    );
    Ok(mutex.into_inner().turns)
}
