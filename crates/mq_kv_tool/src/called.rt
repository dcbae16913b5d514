// A call of the program of which nothing is stated.
use crate::program::kv;
use mq_outside::{Files, Sink};
use std::alloc::Global;
use std::sync::Wait;

/// Calls `kv`. It has no clause, so that a caller that needs none of those of `kv` is proved without them.
pub fn call_kv<F: Files, K: Sink, R: Wait>(
    rt: &R,
    alloc: Global,
    words: &[String],
    files: &mut F,
    out: &mut K,
) -> u8 {
    kv(rt, alloc, words, files, out)
}
