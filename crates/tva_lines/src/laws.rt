// What holds of every line of a report.
ghost use Rattle.std.specs.List.{All};
ghost use Rattle.tva_base.specs.declared.event.{Event.Event, Totals.Totals};
ghost use Rattle.tva_base.specs.Printable.{IsLine, IsPrintable};
ghost use Rattle.tva_plan.specs.{declared.config.Config.Config, Valid.IsConfig};
ghost use Rattle.tva_lines.specs.Lines.{FitsEvent, FitsTotals, text_of_event, text_of_totals};

/// Under a valid configuration the text of an event has no byte but from the blank to `~`, and it has
/// 1 to 255 bytes where the event's numbers are within their widths. So it is with the text of the sums.
pub fn lines_are_printable()
    ensures event { (config : Config) (event : Event) → IsConfig config → FitsEvent event
        → IsLine (text_of_event config event) }
    ensures bytes { (config : Config) (event : Event) → IsConfig config
        → All IsPrintable (text_of_event config event) }
    ensures totals { (totals : Totals) → FitsTotals totals → IsLine (text_of_totals totals) }
{}
