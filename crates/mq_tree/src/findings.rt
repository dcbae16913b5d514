// The lesser of two findings.
ghost use Rattle.std.specs.Prelude.{◌≡◌};
ghost use Rattle.mq_tree.specs.Least.{lesser as lesser_of};

/// The lesser of two blocks, where they are there.
pub fn lesser(one: Option<u32>, other: Option<u32>) -> Option<u32>
    ensures { result ≡ lesser_of one other }
{
    match (one, other) {
        (Some(a), Some(b)) => Some(a.min(b)),
        (Some(a), None) => Some(a),
        (None, b) => b,
    }
}
