// What a flash, a TPM or a disk counts, where its stop stands, and how calls move both.
ghost use Rattle.std.specs.Prelude.{◌≡◌, ◌≤◌, is_err};
ghost use Rattle.board_core.specs.Counters.{raised, Observed, CountedChange, turn_of, stop_after, plain_counters};

use crate::device::Failed;

/// Where the stop of a device stands. A device that is no fuse is `Unarmed`.
#[derive(Clone, Copy, Debug, PartialEq, Eq)]
pub enum FuseState {
    /// No call is chosen.
    Unarmed,
    /// The `left`-th changing call from now on is chosen, and `left` is at least 1. `keep` says how much of it happens: in
    /// bytes for a flash and a disk; for a TPM 0 is nothing and any other number is all.
    Armed { left: u32, keep: u32 },
    /// The chosen call came. Each call answers `Failed` until the fuse is revived.
    Dead,
}

/// What becomes of a changing call of a fuse.
#[derive(Clone, Copy, Debug, PartialEq, Eq)]
pub enum Turn {
    /// It passes on to the device below.
    Pass,
    /// It is the chosen one, of which so much happens.
    Stop { keep: u32 },
    /// It is refused, since the fuse is dead.
    Refuse,
}

/// What a flash, a TPM or a disk counts, and where its stop stands. Each count stands still at the greatest u64.
#[derive(Clone, Copy, Debug)]
pub struct Counters {
    /// How many calls answered `Failed`.
    pub faults: u64,
    /// How many changing calls answered `Failed`.
    pub failed_changes: u64,
    /// Where the stop stands.
    pub stop: FuseState,
    /// How often the stop was set: armed, or revived.
    pub settings: u64,
}

/// The count after one more. It stands still at the greatest u64.
pub fn raise(count: u64) -> u64
    ensures raised { result ≡ raised count }
    ensures no_less { count ≤ result }
{
    count.saturating_add(1)
}

impl Counters {
    /// Counts of 0, and no stop.
    pub fn new() -> Self
        ensures { result ≡ plain_counters 0 0 }
    {
        Counters {
            faults: 0,
            failed_changes: 0,
            stop: FuseState::Unarmed,
            settings: 0,
        }
    }

    /// Counts the answer of a call that changes no content, and hands it on.
    pub fn count_observed<T>(&mut self, answer: Result<T, Failed>) -> Result<T, Failed>
        ensures same { result ≡ answer }
        ensures counted { Observed self.old self.new (is_err result) }
    {
        if answer.is_err() {
            self.faults = raise(self.faults);
        }
        answer
    }

    /// Counts the answer of a changing call, and hands it on. The stop was moved before, by `begin_change`.
    pub fn count_change<T>(&mut self, answer: Result<T, Failed>) -> Result<T, Failed>
        ensures same { result ≡ answer }
        ensures counted { CountedChange self.old self.new (is_err result) }
    {
        if answer.is_err() {
            self.faults = raise(self.faults);
            self.failed_changes = raise(self.failed_changes);
        }
        answer
    }

    /// Begins a changing call: moves the stop by one call, and says what becomes of the call.
    pub fn begin_change(&mut self) -> Turn
        ensures turn { result ≡ turn_of self.old.stop }
        ensures after { self.new ≡ record self.old { stop = stop_after self.old.stop } }
    {
        match self.stop {
            FuseState::Unarmed => Turn::Pass,
            FuseState::Dead => Turn::Refuse,
            FuseState::Armed { left, keep } => {
                if left <= 1 {
                    self.stop = FuseState::Dead;
                    Turn::Stop { keep }
                } else {
                    self.stop = FuseState::Armed {
                        left: left - 1,
                        keep,
                    };
                    Turn::Pass
                }
            }
        }
    }
}
