// What holds of the trace of a block text.
ghost use Rattle.std.specs.Prelude.{ℕ, Option, List};
ghost use Rattle.mq_blocks.specs.declared.geometry.Geometry.{Geometry};
ghost use Rattle.mq_audit.specs.Traces.{IsTrace};
ghost use Rattle.mq_block_text.specs.Text.{IsGoodText};
ghost use Rattle.mq_block_text.specs.declared.item.BlockItem.{BlockItem};
ghost use Rattle.mq_block_trace.specs.Fresh.{IsTextGeometry};
ghost use Rattle.mq_block_trace.specs.Traced.{IsTraceOf, traced};
ghost use Rattle.mq_block_trace.specs.Written.{trace_of, trace_text};

use mq_audit::lines_spell_events;
use mq_core::{every_run_is_lawful, starts};

/// The machine accepts the trace of a good text, cut after any number of events. Its draws are the lines', and
/// where the cut leaves so many lines, an image of its last state reaches this number.
pub fn traces_are_allowed()
    ensures { (g : Geometry) (lines : List (List BlockItem)) (cut : Option ℕ)
        → IsTextGeometry g
        → IsGoodText lines
        → IsTraceOf g lines cut (traced lines cut) }
{
    starts();
}

/// The text of the trace of a good text, cut after any number of events, is read as this trace.
pub fn traces_are_read()
    ensures { (g : Geometry) (lines : List (List BlockItem)) (cut : Option ℕ)
        → IsTextGeometry g
        → IsGoodText lines
        → IsTrace (trace_text g (traced lines cut)) (trace_of g lines cut) }
{
    lines_spell_events();
}
