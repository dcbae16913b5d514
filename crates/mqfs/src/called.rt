// A call of the program of which nothing is stated.
use crate::program::mqfs;
use mq_calls::Open;
use mq_outside::{Files, Sink};
use std::alloc::Global;
use std::sync::Wait;
use std::thread::Threads;

/// Calls `mqfs` with a gate that is always open. It has no clause, so that a caller that needs none of those of
/// `mqfs` is proved without them.
pub fn call_mqfs<F: Files, K: Sink, R: Threads + Wait + Sync>(
    rt: &R,
    alloc: Global,
    words: &[String],
    files: &mut F,
    out: &mut K,
) -> u8 {
    mqfs(rt, alloc, words, files, out, &Open)
}
