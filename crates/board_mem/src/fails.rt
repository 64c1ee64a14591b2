// Which calls of a device in memory are to fail, and what a failed one leaves.
ghost use Rattle.std.specs.Prelude.{◌≡◌, ◌+◌, ◌^◌, ◌<◌, ◌≤◌, length, IfOk, IfSome, is_some, if◌then◌else◌};
ghost use Rattle.board_mem.specs.Fails.{left_by, plan_of, failure_at, next_failure, after_call, failures_to_come};

use board_core::raise;
use std::alloc::{AllocError, Global};

/// What a failed call leaves in a range that it may change.
#[derive(Clone, Copy, Debug, PartialEq, Eq)]
pub enum Remains {
    /// The bytes that stood there.
    Old,
    /// The bytes that were to stand there.
    New,
    /// This byte all over the range. A TPM takes it as `Old`.
    Fill(u8),
}

/// One call that is to fail.
#[derive(Clone, Copy, Debug, PartialEq, Eq)]
pub struct FailAt {
    /// Its number among all calls of the device that can fail, the first of which is 1.
    pub call: u32,
    /// What it leaves. A source, a sink and a hook do not look at it.
    pub remains: Remains,
}

/// The calls that are to fail, and how many were made.
#[derive(Drop)]
pub struct Schedule {
    pub fails: Vec<FailAt>,
    pub calls: u64,
}

impl Schedule {
    /// No call is made yet. It takes the memory of the list.
    pub fn new(alloc: Global, fails: &[FailAt]) -> Result<Schedule, AllocError>
        ensures fails { IfOk result (λ schedule. (plan_of schedule).fails ≡ fails.now) }
        ensures calls { IfOk result (λ schedule. (plan_of schedule).calls ≡ 0) }
        ensures to_come { IfOk result (λ schedule. failures_to_come (plan_of schedule) ≤ length fails.now) }
    {
        Ok(Schedule {
            fails: fails.to_vec(alloc)?,
            calls: 0,
        })
    }

    /// Counts a call, and answers what it leaves if it is to fail.
    pub fn next(&mut self) -> Option<Remains>
        ensures failure { result ≡ next_failure (plan_of self.old) }
        ensures after { plan_of self.new ≡ after_call (plan_of self.old) }
        // A failure that comes is no more to come.
        ensures to_come { failures_to_come (plan_of self.new) + (if is_some result then 1 else 0) ≤ failures_to_come (plan_of self.old) }
    {
        self.calls = raise(self.calls);
        failure_of(&self.fails, self.calls)
    }
}

// What the list says of a call. A call that it names is numbered by a u32.
fn failure_of(fails: &[FailAt], call: u64) -> Option<Remains>
    ensures value { result ≡ failure_at fails.now call }
    ensures named { IfSome result (λ remains. call < 2 ^ 32) }
{
    let fail = fails.iter().find(|fail| fail.call as u64 == call)?;
    // The clause `named` rests on the range of this number.
    let _call = fail.call;
    Some(fail.remains)
}

/// Fills a range with what a failure leaves there.
pub fn leave(remains: Remains, was: &[u8], meant: &[u8], left: &mut [u8])
    requires was { length was.now ≡ length left.old }
    requires meant { length meant.now ≡ length left.old }
    ensures { left.new ≡ left_by remains was.now meant.now }
{
    match remains {
        Remains::Old => left.copy_from_slice(was),
        Remains::New => left.copy_from_slice(meant),
        Remains::Fill(byte) => left.fill(byte),
    }
}
