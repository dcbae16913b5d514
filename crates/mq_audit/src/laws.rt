// What lines spell.
ghost use Rattle.std.specs.Prelude.{◌≡◌, ℕ, List, Some};
ghost use Rattle.mq_block_text.specs.Words.{words_of};
ghost use Rattle.mq_blocks.specs.declared.geometry.Geometry.{Geometry as Shape};
ghost use Rattle.mq_core.specs.declared.event.Event.{Event};
ghost use Rattle.mq_audit.specs.Events.{event_in};
ghost use Rattle.mq_audit.specs.Spelled.{IsEvent, event_words};

/// A line whose words are those of an event is read as this event, and no other line is. The event's
/// queue and blocks are the geometry's, and a draw has the next number.
pub fn lines_spell_events()
    ensures read { (g : Shape) (number : ℕ) (line : List ℕ) (e : Event)
        → IsEvent g number e
        → words_of line ≡ event_words e
        → event_in g number line ≡ Some e }
    ensures spelled { (g : Shape) (number : ℕ) (line : List ℕ) (e : Event)
        → event_in g number line ≡ Some e
        → IsEvent g number e × (words_of line ≡ event_words e) }
{}
