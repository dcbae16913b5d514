// What a run of the workload leaves.
use mq_tree::TreeCounts;

/// What a run of the generated workload leaves.
#[derive(Drop)]
pub struct Generated {
    /// The file of the image that a cut of the power left, once all sessions had ended. It is empty if it
    /// was not asked for.
    pub file: Vec<u8>,
    /// The number of transaction numbers that were drawn.
    pub commits: u64,
    /// The counts of the tree after the last of them.
    pub counts: TreeCounts,
}
