//! A tree says a report exactly where it is the report's tree and the report is permitted.
ghost use Rattle.pm_form.specs.Form.{IsExact};
ghost use Rattle.pm_file.specs.ReportForm.{report_form};

/// A law of the form alone.
pub fn report_is_exact()
    ensures { IsExact report_form }
{}
