//! Worked runs of a direction as tables, its size, and plans at their ends.
use circular_buffer::HeapCircularBuffer;
use nio_base::Addr;
use nio_relay::*;
use std::process::Abort;
use std::test::Fail;

const NOTHING: Want = Want {
    read: false,
    write: false,
    shut: false,
};

const READ: Want = Want {
    read: true,
    ..NOTHING
};

const WRITE: Want = Want {
    write: true,
    ..NOTHING
};

const READ_WRITE: Want = Want {
    read: true,
    ..WRITE
};

const SHUT: Want = Want {
    shut: true,
    ..NOTHING
};

/// What is done to a direction.
#[derive(Clone, Copy, Debug)]
enum Step {
    /// So many bytes are read.
    Read(usize),
    /// So many bytes are read, and so many of them written at once.
    Pass(usize, usize),
    /// Buffered bytes are written until so many are left.
    WriteTo(usize),
    End,
    Shut,
    Fault,
    Reset,
}

/// A direction, what is still to be read by it, and all that it wrote.
#[derive(Drop)]
struct Run<'a> {
    direction: Direction,
    unread: &'a [u8],
    written: Vec<u8>,
}

impl Run<'_> {
    fn take(&mut self, rt: &impl Abort, step: Step) -> Result<(), Fail> {
        match step {
            Step::Read(count) => self.read(rt, count),
            Step::Pass(count, at_once) => self.pass(rt, count, at_once)?,
            Step::WriteTo(left) => self.write_to(rt, left)?,
            Step::End => self.direction.on_end(),
            Step::Shut => {
                assert!(rt; self.direction.want().shut);
                self.direction.on_shut();
            }
            Step::Fault => self.direction.on_fault(),
            Step::Reset => self.direction.reset(),
        }
        Ok(())
    }

    fn read(&mut self, rt: &impl Abort, count: usize) {
        assert!(rt; self.direction.want().read);
        assert!(rt; count <= self.direction.room());
        assert!(rt; count <= self.unread.len());
        let (bytes, unread) = self.unread.split_at(count);
        self.direction.on_read(bytes);
        self.unread = unread;
    }

    fn pass(&mut self, rt: &impl Abort, count: usize, at_once: usize) -> Result<(), Fail> {
        assert!(rt; self.direction.want().read);
        assert!(rt; self.direction.front().is_empty());
        assert!(rt; at_once <= count);
        assert!(rt; count <= self.direction.room());
        assert!(rt; count <= self.unread.len());
        let (bytes, unread) = self.unread.split_at(count);
        self.written.extend_from_slice(&bytes[..at_once])?;
        self.direction.on_passed(bytes, at_once);
        self.unread = unread;
        Ok(())
    }

    /// What is buffered lies in two pieces at most.
    fn write_to(&mut self, rt: &impl Abort, left: usize) -> Result<(), Fail> {
        for _ in 0..2 {
            let buffered = CAPACITY - self.direction.room();
            let front = self.direction.front();
            let piece = &front[..front.len().min(buffered.saturating_sub(left))];
            self.written.extend_from_slice(piece)?;
            let count = piece.len();
            self.direction.on_written(count);
        }
        assert_eq!(rt; CAPACITY - self.direction.room(), left);
        Ok(())
    }
}

/// Each step, the room after it, and what is wanted then.
const FILLS_WRAPS_ENDS_AND_SHUTS: &[(Step, usize, Want)] = &[
    (Step::Read(0), 16_384, READ),
    (Step::Read(16_384), 0, WRITE),
    (Step::WriteTo(6_384), 10_000, READ_WRITE),
    (Step::Read(9_999), 1, READ_WRITE),
    (Step::Read(1), 0, WRITE),
    (Step::WriteTo(16_383), 1, READ_WRITE),
    (Step::WriteTo(0), 16_384, READ),
    (Step::Read(15), 16_369, READ_WRITE),
    (Step::End, 16_369, WRITE),
    (Step::WriteTo(1), 16_383, WRITE),
    (Step::WriteTo(0), 16_384, SHUT),
    (Step::End, 16_384, SHUT),
    (Step::Shut, 16_384, NOTHING),
    (Step::End, 16_384, NOTHING),
];

const PASSES_AND_IS_USED_AGAIN: &[(Step, usize, Want)] = &[
    (Step::Pass(100, 100), 16_384, READ),
    (Step::Pass(16_384, 6_384), 6_384, READ_WRITE),
    (Step::WriteTo(0), 16_384, READ),
    (Step::Pass(5, 0), 16_379, READ_WRITE),
    (Step::WriteTo(0), 16_384, READ),
    (Step::End, 16_384, SHUT),
    (Step::Shut, 16_384, NOTHING),
    (Step::Reset, 16_384, READ),
    (Step::Read(7), 16_377, READ_WRITE),
    (Step::Fault, 16_377, NOTHING),
    (Step::WriteTo(0), 16_384, NOTHING),
    (Step::Reset, 16_384, READ),
];

const FAILS_WITH_BYTES_HELD: &[(Step, usize, Want)] = &[
    (Step::Read(100), 16_284, READ_WRITE),
    (Step::Fault, 16_284, NOTHING),
    (Step::End, 16_284, NOTHING),
];

#[test]
fn directions_take_write_end_and_fail(rt: HostRuntime) -> Result<(), Fail> {
    let bytes: Vec<u8> = (0..26_399_u32)
        .map(|i| (i % 251) as u8)
        .collect(rt.alloc())?;
    for (name, steps, written) in [
        (
            "fills, wraps, ends and shuts",
            FILLS_WRAPS_ENDS_AND_SHUTS,
            26_399,
        ),
        ("passes and is used again", PASSES_AND_IS_USED_AGAIN, 16_496),
        ("fails with bytes buffered", FAILS_WITH_BYTES_HELD, 0),
    ] {
        let mut run = Run {
            direction: Direction::make(rt.alloc())?,
            unread: &bytes,
            written: Vec::new(rt.alloc()),
        };
        assert_eq!(rt; run.direction.want(), READ, "{name}");
        for (step, room, want) in steps {
            run.take(&rt, *step)?;
            assert_eq!(rt; run.direction.room(), *room, "{name}: after {step:?}");
            assert_eq!(rt; run.direction.want(), *want, "{name}: after {step:?}");
        }
        assert_eq!(rt; run.written.len(), written, "{name}");
        assert!(rt; bytes.starts_with(&run.written), "{name}");
    }
    Ok(())
}

fn sent<T: Send>(value: T) -> T {
    value
}

#[test]
fn a_direction_is_its_buffer_and_three_flags(rt: HostRuntime) -> Result<(), Fail> {
    assert_eq!(rt;
        size_of::<Direction>(),
        size_of::<(HeapCircularBuffer<u8>, bool, bool, bool)>()
    );
    let direction = sent(Direction::make(rt.alloc())?);
    assert!(rt; direction.front().is_empty());
    Ok(())
}

#[test]
fn plans_fit_at_their_ends(rt: HostRuntime) {
    let here = Addr {
        ip: [127, 0, 0, 1],
        port: 80,
    };
    for (conns, at_once, fits) in [
        (0, 1, false),
        (1, 0, false),
        (1, 1, true),
        (u32::MAX, 16_000, true),
        (1, 16_001, false),
    ] {
        let plan = ProxyPlan {
            listen: here,
            target: here,
            conns,
            at_once,
        };
        assert_eq!(rt; plan.fits(), fits, "{plan:?}");
    }
}
