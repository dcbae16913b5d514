// Points of a call at which its caller may wait.

/// A point that a call has reached. The session holds no turn there.
#[derive(Clone, Copy, PartialEq, Eq)]
pub enum Point {
    /// The commit was rung, and all turns are given back.
    Rung,
    /// The call is about to return, with an answer or a refusal.
    Answered,
}

/// The hook that a call passes at fixed points. A test can hold a session there; it can't change what
/// the call does.
pub trait Gate {
    fn pass(&self, session: u32, point: Point);
}

/// A gate that is always open.
#[derive(Clone, Copy, PartialEq, Eq)]
pub struct Open;

impl Gate for Open {
    fn pass(&self, _session: u32, _point: Point) {}
}
