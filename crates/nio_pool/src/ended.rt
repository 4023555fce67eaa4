//! The operations whose handlers have ended. A worker notes them here without the group's lock, and who gets the lock
//! next finishes them in the core before anything else. So the lock is taken once for many operations, and yet nobody
//! who gets the lock finds an operation running that was noted before.
ghost use Rattle.nio_pool.specs.Batches.{Finishes};

use crossbeam_utils::CachePadded;
use nio_base::OpNo;
use nio_group::GroupCore;
use std::alloc::{AllocError, Global};
use std::array;
use std::cell::Cell;
use std::sync::atomic::{AtomicBool, AtomicU64, Ordering};

/// What a place holds where no operation is noted. No operation has this number.
const VACANT: u64 = u64::MAX;

/// How many operations a slate has room for.
const ROOM: usize = 16;

/// What the workers of a group have noted.
#[derive(Drop)]
pub(crate) struct Ended {
    slates: Vec<CachePadded<Slate>>,
    // a bit for each slate, the lowest for the first: where it is 0 nothing is noted there
    noted: CachePadded<AtomicU64>,
}

/// Where one worker at a time notes operations. It alone fills places, and who has the lock alone clears them.
#[derive(Drop)]
struct Slate {
    is_taken: AtomicBool,
    places: [AtomicU64; ROOM],
}

/// The slate that a worker has.
#[derive(Drop)]
pub(crate) struct OwnSlate<'a> {
    slate: &'a Slate,
    bit: u64,
    // the place of the next note; places are filled in turn
    next: Cell<usize>,
}

impl Ended {
    /// Slates for so many workers, at most 64.
    pub fn make(alloc: Global, workers: usize) -> Result<Ended, AllocError> {
        let mut slates = Vec::with_capacity(alloc, workers)?;
        for _ in 0..workers {
            slates.push(CachePadded::new(Slate::new()))?;
        }
        Ok(Ended {
            slates,
            noted: CachePadded::new(AtomicU64::new(0)),
        })
    }

    /// For how many workers it was made.
    pub fn workers(&self) -> u64 {
        self.slates.len() as u64
    }

    /// A slate that no other worker has, if there is one.
    pub fn take_slate(&self) -> Option<OwnSlate<'_>> {
        let mut bit = 1u64;
        for padded in &self.slates {
            let slate: &Slate = padded;
            if !slate.is_taken.swap(true, Ordering::SeqCst) {
                return Some(OwnSlate {
                    slate,
                    bit,
                    next: Cell::new(0),
                });
            }
            bit = bit.rotate_left(1);
        }
        None
    }

    /// Notes an operation. False where the slate has no room: then the worker finishes the operation itself.
    pub fn note(&self, own: &OwnSlate<'_>, op: OpNo) -> bool {
        if !own.note(op) {
            return false;
        }
        // who clears this bit reads the slate after that
        if self.noted.load(Ordering::SeqCst) & own.bit == 0 {
            self.noted.fetch_or(own.bit, Ordering::SeqCst);
        }
        true
    }

    /// Finishes what was noted before this call. Only who has the group's lock calls this.
    pub fn finish_all(&self, core: &mut GroupCore)
        ensures { Finishes core.old core.new }
    {
        if self.noted.load(Ordering::SeqCst) == 0 {
            return;
        }
        let mut noted = self.noted.swap(0, Ordering::SeqCst);
        for slate in &self.slates {
            if noted == 0 {
                return;
            }
            if noted & 1 != 0 {
                slate.finish_all(core);
            }
            noted >>= 1;
        }
    }
}

impl OwnSlate<'_> {
    /// From here on another worker may take the slate.
    pub fn give_back(&self) {
        self.slate.is_taken.store(false, Ordering::SeqCst);
    }

    fn note(&self, op: OpNo) -> bool {
        let places = &self.slate.places[..];
        let next = self.next.get() % ROOM;
        let place = &places[next];
        if place.load(Ordering::SeqCst) != VACANT {
            return false;
        }
        place.store(op.0, Ordering::SeqCst);
        self.next.set(next + 1);
        true
    }
}

impl Slate {
    fn new() -> Slate {
        Slate {
            is_taken: AtomicBool::new(false),
            places: array::from_fn(|_| AtomicU64::new(VACANT)),
        }
    }

    fn finish_all(&self, core: &mut GroupCore)
        ensures { Finishes core.old core.new }
    {
        for place in &self.places {
            let number = place.load(Ordering::SeqCst);
            if number != VACANT {
                place.store(VACANT, Ordering::SeqCst);
                // refused where the handler has finished it itself
                let _ = core.finish(OpNo(number));
            }
        }
    }
}
