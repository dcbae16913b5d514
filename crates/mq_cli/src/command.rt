// The command that the words of the command line spell.
use crate::verb::Verb;
use mq_tree::Path;

/// The numbers of the options of `blocks`.
#[derive(Clone, Copy)]
pub struct BlocksOptions {
    /// The number of events after which the power goes off.
    pub cut: Option<u64>,
    /// The seed of the choice of what is uncertain at the cut.
    pub pick: Option<u64>,
    /// The number of events of a first recovery after which the power goes off again.
    pub again: Option<u64>,
}

/// A command of a port that ends with an error.
#[derive(Clone, Copy)]
pub struct FailingCommand {
    /// The port's number.
    pub port: u64,
    /// The command's number among those of the port, counted from 1.
    pub command: u64,
}

/// The numbers of the options of `run`.
#[derive(Clone, Copy)]
pub struct RunFlags {
    /// The number of events after which the power goes off.
    pub cut: Option<u64>,
    /// The seed of the choice of what is uncertain at the cut, and of the order in which commands
    /// end.
    pub pick: Option<u64>,
    /// The command that ends with an error.
    pub fail: Option<FailingCommand>,
}

/// The command that words spell.
#[derive(Drop)]
pub enum Command<'a> {
    Blocks {
        file: &'a str,
        options: BlocksOptions,
        /// The name under which the image that the cut left is saved.
        save: Option<&'a str>,
        /// The name under which the trace of the events up to the cut is saved. It is not that of the image.
        trace: Option<&'a str>,
    },
    Format {
        image: &'a str,
        queues: u32,
        area: u32,
        meta: u32,
        zone: u32,
    },
    Run {
        image: &'a str,
        /// The names of the scripts, of which there is at least one.
        scripts: Vec<&'a str>,
        options: RunFlags,
    },
    Recover {
        image: &'a str,
        /// The number of events after which the power goes off.
        cut: Option<u64>,
        /// The seed of the choice of what is uncertain at the cut.
        pick: Option<u64>,
    },
    Ls {
        image: &'a str,
    },
    Cat {
        image: &'a str,
        path: Path,
    },
    Gen {
        /// The seed of the workload.
        seed: u64,
        threads: u32,
        /// The number of groups of requests of each thread, not counting its first.
        groups: u32,
        /// The name under which the image that the run left is saved.
        save: Option<&'a str>,
    },
    Dump {
        image: &'a str,
    },
    Check {
        image: &'a str,
    },
    Audit {
        trace: &'a str,
    },
    Replicate {
        file: &'a str,
        /// The seed of the words that decide what is lost and what comes twice.
        seed: Option<u64>,
        /// The name under which the image of the replica is saved.
        save: Option<&'a str>,
    },
    Loose {
        file: &'a str,
        /// The number of events after which the power goes off.
        cut: Option<u64>,
        /// The seed of the choice of what is uncertain at the cut.
        pick: Option<u64>,
        /// The name under which the image that the cut left is saved.
        save: Option<&'a str>,
    },
    /// Help on a command, or on the program.
    Help(Option<Verb>),
    Version,
}
