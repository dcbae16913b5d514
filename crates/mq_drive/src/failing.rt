// Which command of an emulated port ends with an error.
ghost use Rattle.std.specs.Prelude.{◌≡◌, ◌<◌, ◌≤◌, ◌^◌, ◌↔◌, ℕ, Bool, true, false};
ghost use Rattle.mq_blocks.specs.Drive.{counted};
ghost use Rattle.mq_drive.specs.Failures.{failed_of, unended_of, while_in};
ghost use Rattle.mq_drive.specs.Limits.{fails_by, fails_next};
ghost use Rattle.std.specs.Option.{ForSome, option_to_list};

use crate::store::bump;
use mq_blocks::{Command, HomeWrite};

/// A write that ended with an error.
#[derive(Drop)]
pub enum Failure {
    Queued(Command),
    Home(HomeWrite),
}

/// The failed command, or the home write that failed, as long as a block is uncertain because of it.
pub fn parts_of(
    failure: Option<Failure>,
    doubt: Option<usize>,
) -> (Option<Command>, Option<HomeWrite>)
    ensures failed { option_to_list result.0 ≡ while_in doubt (failed_of failure) }
    ensures unended { option_to_list result.1 ≡ while_in doubt (unended_of failure) }
{
    if doubt.is_none() {
        return (None, None);
    }
    match failure {
        Some(Failure::Queued(command)) => (Some(command), None),
        Some(Failure::Home(write)) => (None, Some(write)),
        None => (None, None),
    }
}

/// The number of commands that a port executed, home writes among them, and which of them fails, counted
/// from 1, if one is given. The count stays at 2^64 - 1 once there.
#[derive(Drop)]
pub struct Failing {
    named: Option<u64>,
    executed: u64,
    failed: bool,
    ghost exact: { failed ≡ fails_by named executed },
    ghost small: { ForSome named (λ k. k < 2 ^ 64) },
}

impl Failing {
    pub fn new(named: Option<u64>) -> Failing
        ensures named { result.named ≡ named }
        ensures executed { result.executed ≡ 0 }
        ensures failed { result.failed ≡ false }
    {
        Failing {
            named,
            executed: 0,
            failed: false,
        }
    }

    /// Counts one command, and returns whether it is the one that fails.
    pub fn next(&mut self) -> bool
        ensures named { self.new.named ≡ self.old.named }
        ensures executed { self.new.executed ≡ counted self.old.executed 1 }
        ensures is { result ≡ fails_next self.old.named self.old.executed }
        ensures fails { result ≡ true → (self.old.failed ≡ false) × (self.new.failed ≡ true) }
        ensures succeeds { result ≡ false → self.new.failed ≡ self.old.failed }
    {
        self.executed = bump(self.executed);
        let fails = !self.failed && self.named == Some(self.executed);
        if fails {
            self.failed = true;
        }
        fails
    }

    /// Whether the command that fails was executed.
    pub fn failed(&self) -> bool
        ensures { result ≡ self.now.failed }
    {
        self.failed
    }
}
