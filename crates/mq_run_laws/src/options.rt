// What a run is asked for.
ghost use Rattle.std.specs.Prelude.{◌≡◌};
ghost use Rattle.mq_run_laws.specs.Endings.{drive_options, finishes as finishes_at, limit_of};

use mq_image_ops::Failing;
use mq_image_run::DriveOptions;

/// How a run ends.
#[derive(Clone, Copy)]
pub enum Ending {
    /// A checkpoint is made once the sessions have ended. The power stays on.
    Checkpoint,
    /// The power goes off after this number of events of the sessions. No checkpoint is made.
    Cut(u64),
    /// Nothing follows the sessions: no checkpoint is made, and the power stays on. No events are counted.
    Sessions,
}

impl Ending {
    /// The number of events after which the power goes off.
    pub fn limit(self) -> Option<u64>
        ensures { result ≡ limit_of self }
    {
        match self {
            Ending::Cut(events) => Some(events),
            Ending::Checkpoint | Ending::Sessions => None,
        }
    }

    /// Whether a checkpoint is made at the end.
    pub fn finishes(self) -> bool
        ensures { result ≡ finishes_at self }
    {
        match self {
            Ending::Checkpoint => true,
            Ending::Cut(_) | Ending::Sessions => false,
        }
    }
}

/// The options of a run, beside its image and its scripts.
#[derive(Clone, Copy)]
pub struct RunOptions {
    pub ending: Ending,
    /// Chooses the order in which posted commands are executed, and what a cut leaves of what is uncertain.
    pub pick: u64,
    /// The command that has to fail, of those that follow the recovery.
    pub fail: Option<Failing>,
}

impl RunOptions {
    /// What is asked for of the drive.
    pub fn drive(self) -> DriveOptions
        ensures { result ≡ drive_options self }
    {
        DriveOptions {
            limit: self.ending.limit(),
            pick: self.pick,
            fail: self.fail,
        }
    }
}
