//! A group under a lock.
ghost use Rattle.std.specs.Prelude.{◌≡◌, ◌↔◌, IsTrue, Err};
ghost use Rattle.std.specs.Sync.Mutex.{mutex_guard_value};
ghost use Rattle.nio_group.specs.Group.{is_terminated, IsLawful};
ghost use Rattle.nio_group.specs.Limits.{IsFit};
ghost use Rattle.nio_pool.specs.Threads.{IsThreadCount};
ghost use Rattle.nio_pool.specs.declared.group.GroupError.TheVariants.{BadThreads};

use crate::ended::{Ended, OwnSlate};
use crate::worker::BATCH;
use crossbeam_utils::CachePadded;
use nio_base::OpNo;
use nio_group::{GroupCore, GroupLimits};
use std::alloc::{AllocError, Global};
use std::sync::atomic::{AtomicBool, AtomicU64, Ordering};
use std::sync::{Condvar, Mutex, MutexGuard, Wait};
use std::thread;
use thiserror::Error;

/// How often a thread that finds a group locked lets others run before it sleeps until the lock is free. The lock is
/// held for about as long as that takes, which is less than to fall asleep and to be woken.
const YIELDS: u32 = 8;

/// With more workers awake the lock is wanted so often that who finds it taken sleeps at once.
const FEW_WORKERS: u64 = 2;

/// Why a group isn't made.
#[derive(Clone, Copy, Debug, PartialEq, Eq, Error)]
pub enum GroupError {
    /// A group has 1 to 64 threads.
    #[error("a group has 1 to 64 threads")]
    BadThreads,
    /// There is no memory for it.
    #[error("no memory")]
    Memory,
}

/// An asynchronous channel group that threads share.
#[derive(Drop)]
pub struct Group {
    core: CachePadded<Mutex<GroupCore>>,
    // operations whose handlers have ended and that still run by the core
    handled: Ended,
    rest: CachePadded<Rest>,
}

/// Who sleeps until something happens in a group. A worker sleeps only where neither the core nor the queue has a
/// completion; who adds one then calls it. One worker at a time is called, or several at once for a batch: each looks at
/// both before it sleeps again, and calls the next one where it leaves something.
///
/// No completion is left while all sleep. Who adds one, to the core or to the queue, reads these counts after that. A
/// worker counts itself as asleep under the lock, once it has found the core empty and before it looks at the queue. So
/// where the reader finds nobody asleep, each worker looks at both before it sleeps. Where the reader finds that one was
/// called, that one hasn't had the lock yet, and looks at both when it has it.
#[derive(Drop)]
struct Rest {
    // what workers sleep on
    changed: Condvar,
    // what `await_termination` sleeps on
    ended: Condvar,
    // How many workers sleep, and whether one of them was called and none of those that were has come yet. Both change
    // under the lock alone.
    asleep: AtomicU64,
    called: AtomicBool,
    // how many wait for termination
    waiting: AtomicU64,
}

impl Group {
    /// An empty group for this many workers. They are threads of the caller's, each of which calls `work`.
    pub fn make(alloc: Global, threads: i64, limits: GroupLimits) -> Result<Group, GroupError>
        requires { IsFit limits }
        ensures { (result ≡ Err BadThreads) ↔ (IsThreadCount threads → ⊥) }
    {
        if threads < 1 || 64 < threads {
            return Err(GroupError::BadThreads);
        }
        let Ok(group) = Group::make_for(alloc, threads as usize, limits) else {
            return Err(GroupError::Memory);
        };
        Ok(group)
    }

    fn make_for(alloc: Global, threads: usize, limits: GroupLimits) -> Result<Group, AllocError>
        requires { IsFit limits }
    {
        let core = GroupCore::make(alloc, limits)?;
        let handled = Ended::make(alloc, threads)?;
        Ok(Group {
            core: CachePadded::new(Mutex::new(core)),
            handled,
            rest: CachePadded::new(Rest::new()),
        })
    }

    /// Lends the group's core. Each operation has ended there whose handler's return a worker had noted, so it doesn't
    /// count as one in flight; `work` notes it as soon as the handler has returned. After a call that queues completions
    /// or ends the group, let the core go and call `wake`.
    pub fn lock<R: Wait>(&self, rt: &R) -> MutexGuard<'_, GroupCore>
        ensures { IsLawful (mutex_guard_value result) }
    {
        let mut core = self.take_lock(rt);
        self.handled.finish_all(&mut core);
        core.law();
        core
    }

    fn take_lock<R: Wait>(&self, rt: &R) -> MutexGuard<'_, GroupCore> {
        for _ in 0..YIELDS {
            if let Some(core) = self.core.try_lock() {
                return core;
            }
            if self.awake() > FEW_WORKERS {
                break;
            }
            thread::yield_now();
        }
        self.core.lock(rt)
    }

    // How many workers are awake where each has a thread.
    fn awake(&self) -> u64 {
        let asleep = self.rest.asleep.load(Ordering::SeqCst);
        self.handled.workers().saturating_sub(asleep)
    }

    /// Wakes a worker that sleeps, unless one was called and is on its way; where the group has terminated, everyone
    /// who sleeps.
    pub fn wake<R: Wait>(&self, rt: &R) {
        if !self.rest.can_call() && !self.rest.has_waiting() {
            return;
        }
        let core = self.lock(rt);
        let terminated = core.is_terminated();
        let called = !terminated && self.rest.call();
        drop(core);
        if terminated {
            self.wake_all();
        } else if called {
            self.rest.changed.notify_one();
        }
    }

    /// Lets the core go, and wakes as many of the workers that sleep as can use this many completions, which the caller
    /// has put into the workers' queue: one for each `BATCH` of them. It wakes none where one was called and is on its
    /// way.
    pub fn wake_for(&self, core: MutexGuard<'_, GroupCore>, completions: u64) {
        let asleep = self.rest.asleep.load(Ordering::SeqCst);
        let useful = completions.div_ceil(BATCH).min(asleep);
        let called = useful != 0 && self.rest.call();
        drop(core);
        if called {
            for _ in 0..useful {
                self.rest.changed.notify_one();
            }
        }
    }

    /// Whether each worker sleeps, and none was called.
    pub fn are_all_asleep(&self) -> bool {
        self.rest.can_call() && self.awake() == 0
    }

    pub(crate) fn wake_all(&self) {
        self.rest.changed.notify_all();
        self.rest.ended.notify_all();
    }

    // Whether a worker sleeps and none is on its way.
    pub(crate) fn can_call(&self) -> bool {
        self.rest.can_call()
    }

    // Wakes a worker that sleeps, unless one is on its way.
    pub(crate) fn call<R: Wait>(&self, rt: &R) {
        let core = self.take_lock(rt);
        let called = self.rest.call();
        drop(core);
        if called {
            self.rest.changed.notify_one();
        }
    }

    // A slate for a worker, if one is left.
    pub(crate) fn take_slate(&self) -> Option<OwnSlate<'_>> {
        self.handled.take_slate()
    }

    // The handler of this operation has ended.
    pub(crate) fn end<R: Wait>(&self, rt: &R, own: Option<&OwnSlate<'_>>, op: OpNo) {
        if let Some(own) = own {
            if self.handled.note(own, op) {
                return;
            }
        }
        // refused where the handler has finished it itself
        let _ = self.lock(rt).finish(op);
    }

    // A worker is about to sleep. From here on it is called.
    pub(crate) fn announce_sleep(&self) {
        self.rest.asleep.fetch_add(1, Ordering::SeqCst);
    }

    pub(crate) fn sleep<'a, R: Wait>(
        &self,
        rt: &R,
        core: MutexGuard<'a, GroupCore>,
    ) -> MutexGuard<'a, GroupCore> {
        let mut core = self.rest.changed.wait(rt, core);
        self.handled.finish_all(&mut core);
        core
    }

    pub(crate) fn end_sleep(&self) {
        self.rest.asleep.fetch_sub(1, Ordering::SeqCst);
        self.rest.called.store(false, Ordering::SeqCst);
    }

    /// Waits until the group has terminated: Java's `awaitTermination` without a time limit.
    pub fn await_termination<R: Wait>(&self, rt: &R) -> MutexGuard<'_, GroupCore>
        ensures terminated { IsTrue (is_terminated (mutex_guard_value result)) }
        ensures lawful { IsLawful (mutex_guard_value result) }
    {
        let mut core = self.lock(rt);
        for _ in rt.forever() {
            if core.is_terminated() {
                core.law();
                return core;
            }
            self.rest.waiting.fetch_add(1, Ordering::SeqCst);
            core = self.rest.ended.wait(rt, core);
            self.rest.waiting.fetch_sub(1, Ordering::SeqCst);
            self.handled.finish_all(&mut core);
        }
        unreachable!()
    }
}

impl Rest {
    fn new() -> Rest {
        Rest {
            changed: Condvar::new(),
            ended: Condvar::new(),
            asleep: AtomicU64::new(0),
            called: AtomicBool::new(false),
            waiting: AtomicU64::new(0),
        }
    }

    fn can_call(&self) -> bool {
        self.asleep.load(Ordering::SeqCst) != 0 && !self.called.load(Ordering::SeqCst)
    }

    fn has_waiting(&self) -> bool {
        self.waiting.load(Ordering::SeqCst) != 0
    }

    // Under the lock: takes note that a worker is called, where one can be. The caller then wakes it.
    fn call(&self) -> bool {
        let can_call = self.can_call();
        if can_call {
            self.called.store(true, Ordering::SeqCst);
        }
        can_call
    }
}
