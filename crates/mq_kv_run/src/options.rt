// What a run is asked for.
ghost use Rattle.std.specs.Prelude.{◌≡◌};
ghost use Rattle.mq_kv_run.specs.Endings.{drive_options, finishes as finishes_at};

use mq_image_run::DriveOptions;

/// The options of a run, beside its image and its groups.
#[derive(Clone, Copy)]
pub struct KvOptions {
    /// The power goes off after this number of events that follow the recovery, or at the end of the groups, and no
    /// checkpoint is made. If it is not given, the run ends with a checkpoint.
    pub cut: Option<u64>,
    /// Chooses the order in which posted commands are executed, and what a cut leaves of what is uncertain.
    pub pick: u64,
}

impl KvOptions {
    /// Whether a checkpoint is made at the end.
    pub fn finishes(self) -> bool
        ensures { result ≡ finishes_at self.cut }
    {
        match self.cut {
            Some(_) => false,
            None => true,
        }
    }
    /// What is asked for of the drive. No command of it has to fail.
    pub fn drive(self) -> DriveOptions
        ensures { result ≡ drive_options self }
    {
        DriveOptions {
            limit: self.cut,
            pick: self.pick,
            fail: None,
        }
    }
}
