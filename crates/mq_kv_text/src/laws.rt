// What holds of the text of a report.
ghost use Rattle.std.specs.Prelude.{◌≡◌};
ghost use Rattle.mq_kv_text.specs.Reports.{IsPlain, Report, report_text};

/// A text is that of one report, if no value that it tells has a line feed.
pub fn a_text_has_one_report()
    ensures { (r s : Report) → IsPlain r → IsPlain s → report_text r ≡ report_text s → r ≡ s }
{}
