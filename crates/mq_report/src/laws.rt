// What holds of the text of a report.
ghost use Rattle.std.specs.Prelude.{◌≡◌, ℕ, List, map};
ghost use Rattle.mq_report.specs.Lines.{Line, as_printed};
ghost use Rattle.mq_report.specs.Reports.{IsReport};
ghost use Rattle.mq_report.specs.declared.line.Last.{Last};
ghost use Rattle.mq_report.specs.declared.line.Told.{Told};

/// A text is the report of one base, one list of entries, one list of answers as far as they are printed,
/// and one end.
pub fn a_text_has_one_reading()
    ensures { (text : List ℕ) (b c : ℕ) (ls ms : List Line) (ts us : List Told) (x y : Last)
        → IsReport text b ls ts x
        → IsReport text c ms us y
        → (b ≡ c) × (ls ≡ ms) × (map as_printed ts ≡ map as_printed us) × (x ≡ y) }
{}
