ghost use Rattle.std.specs.Prelude.{◌≡◌, None};

use gp_report::Report;

/// How a call ended.
#[derive(Debug, Drop)]
pub struct Outcome {
    /// The exit status, one of `status`.
    pub status: u8,
    /// What the run tells, where there was one.
    pub report: Option<Report>,
}

impl Outcome {
    /// The outcome where no run was made, or it did not become complete.
    pub(crate) fn without_report(status: u8) -> Outcome
        ensures status { result.status ≡ status }
        ensures report { result.report ≡ None }
    {
        Outcome {
            status,
            report: None,
        }
    }
}
