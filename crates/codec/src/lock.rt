//! Whether a receiver has lock, and how frames move it.
ghost use Rattle.std.specs.Prelude.{◌≡◌};
ghost use Rattle.codec.specs.Locks.{next_lock};

/// So many bad frames in a row cost the lock.
const RUN: u8 = 40;

/// The lock of a receiver, with its run of bad frames.
// No Option<u8>: its cases would have no names, and a count alone would not say that it is a lock.
#[derive(Clone, Copy, PartialEq, Eq, Debug)]
pub enum Lock {
    Locked { bad: u8 },
    Lost,
}

/// What became of a frame.
// Two cases with names and no Result: what is promised of the lock speaks of them.
#[derive(Clone, Copy, PartialEq, Eq, Debug)]
pub enum FrameOutcome {
    Accepted,
    BeyondRepair,
}

impl Lock {
    /// Takes a frame's outcome in: acceptance sets the run back, and a lost lock stays lost.
    pub(crate) fn note(&mut self, outcome: FrameOutcome)
        ensures { self.new ≡ next_lock self.old outcome }
    {
        *self = match (*self, outcome) {
            (Lock::Locked { .. }, FrameOutcome::Accepted) => Lock::Locked { bad: 0 },
            (Lock::Locked { bad }, FrameOutcome::BeyondRepair) => {
                if bad < RUN - 1 {
                    Lock::Locked { bad: bad + 1 }
                } else {
                    Lock::Lost
                }
            }
            (Lock::Lost, _) => Lock::Lost,
        };
    }
}
