//! Queues of injections: the seventeenth comes back, and each is taken once.

ghost use Rattle.std.specs.Prelude.{◌≡◌};

use dl_bytes::{Injection, OutOfMemory, Payload};
use dl_ring::{InjectPush, InjectTake, make_injections};
use std::alloc::Global;
use std::sync::Wait;
use std::thread;
use std::thread::Threads;

/// An injection with this service id.
fn injection(service: u32) -> Injection {
    Injection {
        place: 0,
        service,
        body: Payload::new(),
    }
}

/// Pushes injections with the service ids from 0 on until one comes back, and answers how many were taken.
fn fill<R: Wait>(rt: &R, push: &mut InjectPush) -> u32
    ensures { push.new.queue ≡ push.old.queue }
{
    for service in 0..100 {
        if push.push(rt, injection(service)).is_err() {
            return service;
        }
    }
    100
}

/// Whether the next takes give the service ids from `first` up to `end`, in order.
fn gives<R: Wait>(rt: &R, take: &mut InjectTake, first: u32, end: u32) -> bool
    ensures { take.new.queue ≡ take.old.queue }
{
    for service in first..end {
        let Some(taken) = take.take(rt) else {
            return false;
        };
        if taken.service != service {
            return false;
        }
    }
    true
}

/// Takes until nothing comes, and answers the service ids as bits.
fn drain<R: Wait>(rt: &R, mut take: InjectTake) -> u32 {
    let mut services = 0;
    for _ in 0..100 {
        let Some(taken) = take.take(rt) else {
            return services;
        };
        services ^= 1 << (taken.service % 32);
    }
    services
}

/// Four threads that take at once: the service ids that each took.
fn crowd<R: Threads + Wait + Sync>(
    rt: &R,
    alloc: Global,
    takers: [InjectTake; 4],
) -> Result<Vec<u32>, OutOfMemory> {
    thread::scope(
        thread::scope_env(),
        rt,
        move |scope| -> Result<Vec<u32>, OutOfMemory> {
            let mut children = Vec::new(alloc);
            for taker in takers {
                children.push(scope.spawn(move || drain(rt, taker))?)?;
            }
            let mut taken = Vec::new(alloc);
            for child in children {
                taken.push(child.join(rt))?;
            }
            Ok(taken)
        },
    )
}

/// Whether sixteen wait at most, and are given in order, and one more waits once one was given.
fn wait_sixteen<R: Wait>(rt: &R, push: &mut InjectPush, take: &mut InjectTake) -> [bool; 5]
    ensures push { push.new.queue ≡ push.old.queue }
    ensures take { take.new.queue ≡ take.old.queue }
{
    [
        fill(rt, push) == 16,
        gives(rt, take, 0, 1),
        push.push(rt, injection(16)).is_ok(),
        gives(rt, take, 1, 17),
        take.take(rt).is_none(),
    ]
}

/// The same of a queue that was just made, and how many each pass was given.
fn sixteen_of_one<R: Wait>(rt: &R, alloc: Global) -> Option<([bool; 5], [u64; 2])> {
    match make_injections(alloc) {
        Ok((mut push, mut take)) => {
            let other = take.split();
            let are_so = wait_sixteen(rt, &mut push, &mut take);
            let joined = [push.join(take), push.join(other)];
            push.look();
            Some((are_so, joined))
        }
        Err(_) => None,
    }
}

#[test]
fn sixteen_wait_at_most(rt: HostRuntime) {
    assert!(rt; sixteen_of_one(&rt, rt.alloc()) == Some(([true; 5], [1, 0])));
}

/// All service ids that were taken, where none was taken twice.
fn taken_once(taken: &[u32]) -> Option<u32> {
    let mut all = 0;
    for services in taken {
        if all & *services != 0 {
            return None;
        }
        all |= *services;
    }
    Some(all)
}

/// What four threads take of sixteen injections.
fn taken_of_one<R: Threads + Wait + Sync>(rt: &R, alloc: Global) -> Option<(u32, u32)> {
    match make_injections(alloc) {
        Ok((mut push, mut first)) => {
            let filled = fill(rt, &mut push);
            let takers = [first.split(), first.split(), first.split(), first.split()];
            match crowd(rt, alloc, takers) {
                Ok(taken) => taken_once(&taken).map(|all| (filled, all)),
                Err(_) => None,
            }
        }
        Err(_) => None,
    }
}

#[test]
fn each_is_taken_once(rt: HostRuntime) {
    assert!(rt; taken_of_one(&rt, rt.alloc()) == Some((16, 0xffff)));
}
