//! The law on reports, as the contract of a function with an empty body: there is nothing to run.

ghost use Rattle.report.specs.Laws.{ReportsAreOfStreams};

/// Two recordings with as many replicas and with the same streams have the same reports of a verdict, as text
/// and as JSON, however their entries were merged.
pub fn reports_are_of_streams()
    ensures { ReportsAreOfStreams }
{}
