// To whom the calls of a port are reported.
use mq_drive::Role;

/// A changing call of a port.
#[derive(Clone, Copy, PartialEq, Eq)]
pub enum Call {
    Stage,
    Flush,
    Ring,
    Step,
    StoreHead,
    StoreBase,
    WriteHome,
}

/// The hook that is called for each changing call of a port, on the thread that makes it and right before
/// it is passed on. A test can hold the call there; it can't change what the call does.
pub trait Watch {
    fn before(&self, role: Role, call: Call);
}
