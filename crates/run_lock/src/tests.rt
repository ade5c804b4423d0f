ghost use Rattle.std.specs.Prelude.{◌≡◌, ◌≤◌, ◌<◌, length, vec_len, IfOk};
ghost use Rattle.std.specs.List.{All};
ghost use Rattle.run_lock.specs.Passes.{IsFree};

use super::*;
use std::alloc::Global;
use std::sync::Wait;
use std::test::*;
use std::thread;
use std::thread::Threads;

// A list that is at least as long as its name, and is its own log.
#[derive(Debug, Drop)]
struct Numbers(Vec<u64>);

impl Named for Numbers {
    type Name = u64;

    type Entry = u64;

    ghost fits = { λ least numbers. least ≤ vec_len numbers.0 };

    ghost log = { λ numbers. numbers.0.items };

    fn length(&self) -> u64 {
        self.0.len() as u64
    }
}

// Appends the numbers below `most`, and wakes after each.
fn append<R: Wait>(rt: &R, lock: &RunLock<Numbers>, pass: &mut Pass<Numbers>, most: u64)
    requires { IsFree lock.now pass.old }
    ensures { IsFree lock.now pass.new }
{
    for number in 0..most {
        let mut held = lock.take(rt, pass);
        let _ = held.value().0.push(number);
        lock.put(pass, held);
        lock.wake(pass);
    }
}

// Rests until the list has `most` numbers.
fn watch<R: Wait>(rt: &R, lock: &RunLock<Numbers>, pass: &mut Pass<Numbers>, most: usize)
    requires { IsFree lock.now pass.old }
    ensures { IsFree lock.now pass.new }
{
    for _ in rt.forever() {
        let mut held = lock.take(rt, pass);
        let count = held.value().0.len();
        lock.put(pass, held);
        if count >= most {
            return;
        }
        lock.rest(rt, pass);
    }
    unreachable!()
}

// Appends a hundred numbers, or rests until all are there.
fn work<R: Wait>(
    rt: &R,
    lock: &RunLock<Numbers>,
    pass: &mut Pass<Numbers>,
    appends: bool,
    all: usize,
)
    requires { IsFree lock.now pass.old }
    ensures { IsFree lock.now pass.new }
{
    if appends {
        append(rt, lock, pass, 100)
    } else {
        watch(rt, lock, pass, all)
    }
}

fn passes(
    alloc: Global,
    lock: &RunLock<Numbers>,
    pass: &mut Pass<Numbers>,
    count: usize,
) -> Vec<Pass<Numbers>>
    requires { IsFree lock.now pass.old }
    ensures team { All (λ p. IsFree lock.now p) result.items }
    ensures pass { IsFree lock.now pass.new }
{
    let mut team = Vec::new(alloc);
    for _thread in 0..count {
        let Ok(other) = pass.split(lock) else {
            break;
        };
        if team.push(other).is_err() {
            break;
        }
    }
    team
}

fn join_all(lock: &RunLock<Numbers>, pass: &mut Pass<Numbers>, team: Vec<Pass<Numbers>>)
    requires pass { IsFree lock.now pass.old }
    requires team { All (λ p. IsFree lock.now p) team.items }
    ensures { IsFree lock.now pass.new }
{
    for other in team {
        pass.join(lock, other);
    }
}

// Threads that append a hundred numbers each, beside threads that rest until all are there.
fn appended<R: Threads + Wait + Sync>(
    rt: &R,
    alloc: Global,
    first: Vec<u64>,
    appenders: usize,
    watchers: usize,
) -> Result<Vec<u64>, Numbers>
    requires { (appenders < 100) × (watchers < 100) }
    ensures { IfOk result (λ numbers. vec_len first ≤ vec_len numbers) }
{
    let least = first.len();
    let (lock, mut pass) = RunLock::new(alloc, least as u64, Numbers(first))?;
    let mut team = passes(alloc, &lock, &mut pass, appenders + watchers);
    let threads = team.len().max(1);
    let all = least.saturating_add(100 * appenders);
    thread::for_each_mut(
        rt,
        team.as_mut_slice(),
        threads,
        &|at, pass| { work(rt, &lock, pass, at < appenders, all) },
    );
    join_all(&lock, &mut pass, team);
    let Numbers(numbers) = lock.close(rt, pass);
    Ok(numbers)
}

#[test]
fn all_that_threads_append_is_found_after_they_join(rt: HostRuntime) -> Result<(), Fail> {
    for (appenders, watchers) in [(2, 0), (1, 1), (4, 4), (1, 7)] {
        let mut first = Vec::new(rt.alloc());
        first.push(7)?;
        let numbers = appended(&rt, rt.alloc(), first, appenders, watchers)?;
        assert_eq!(rt; numbers.len(), 1 + 100 * appenders);
        let last = numbers.iter().filter(|number| **number == 99).count();
        assert_eq!(rt; last, appenders);
    }
    Ok(())
}

#[test]
fn a_pass_that_has_not_seen_the_whole_log_does_not_rest(rt: HostRuntime) -> Result<(), Fail> {
    let (lock, mut early) = RunLock::new(rt.alloc(), 0, Numbers(Vec::new(rt.alloc())))?;
    let mut late = early.split(&lock).expect(&rt, "a second pass");
    append(&rt, &lock, &mut late, 1);
    lock.rest(&rt, &mut early);
    early.join(&lock, late);
    let Numbers(numbers) = lock.close(&rt, early);
    assert_eq!(rt; numbers.len(), 1);
    Ok(())
}
