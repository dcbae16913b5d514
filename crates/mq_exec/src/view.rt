// The pages that a group of requests may look at.
ghost use Rattle.std.specs.Prelude.{◌≡◌};

use mq_pages::Held;

/// Pages that a session holds, as a group of requests finds them.
#[derive(Clone, Copy)]
pub struct View<'a> {
    pub(crate) held: &'a Held,
}

impl<'a> View<'a> {
    pub fn new(held: &'a Held) -> View<'a>
        ensures { result.held.now ≡ held.now }
    {
        View { held }
    }
}
