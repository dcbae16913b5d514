// Who serves a notice.
ghost use Rattle.std.specs.Prelude.{[]};
ghost use Rattle.mq_notices.specs.Notices.{with_number};
ghost use Rattle.mq_notices.specs.Serving.{Serves};

use mq_blocks::TxNo;
use std::sync::Wait;

/// Serves transactions by their numbers, with a context that servers share.
pub trait Serve<C> {
    ghost use Rattle.std.specs.Prelude.{ℕ};

    /// What holds of a server before and after each service.
    ghost is_ready: { C → Self → Type 0 };

    /// Serving this number takes a server from one state to the other.
    ghost serves: { C → ℕ → Self → Self → Type 0 };

    fn serve<R: Wait>(&mut self, rt: &R, context: &C, number: TxNo)
        requires { is_ready context.now self.old }
        ensures ready { is_ready context.now self.new }
        ensures served { serves context.now number self.old self.new };
}

/// Serves the number of a notice. The last notice has none, and there is nothing to serve.
pub(crate) fn serve_number<C, S: Serve<C>, R: Wait>(
    rt: &R,
    context: &C,
    server: &mut S,
    number: Option<TxNo>,
)
    requires { S.is_ready context.now server.old }
    ensures ready { S.is_ready context.now server.new }
    ensures served { Serves (S.serves context.now) server.old (with_number number []) server.new }
{
    if let Some(number) = number {
        server.serve(rt, context, number);
    }
}
