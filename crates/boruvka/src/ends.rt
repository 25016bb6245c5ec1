//! Writes how a run ended.
ghost use Rattle.std.specs.Prelude.{◌≡◌, false};
ghost use Rattle.boruvka.specs.Status.{status_of_run, IsReported};

use byte_streams::Sink;
use plain_run::{Report, RunFault};
use program_words::{status_of, write_fault, write_report};

/// If a run failed, writes why. If it succeeded and the report is wanted, writes the report. Returns the exit status.
pub fn write_end<E: Sink>(
    wants_report: bool,
    ended: &Result<Report, RunFault>,
    errors: &mut E,
) -> u8
    requires { E.can_write errors.old }
    ensures status { result ≡ status_of_run ended.now }
    ensures reported { IsReported wants_report ended.now (E.state errors.old) (E.state errors.new) }
    ensures quiet { wants_report ≡ false → result ≡ 0 → errors.new ≡ errors.old }
{
    match ended {
        Ok(report) => {
            if wants_report {
                write_report(errors, report);
            }
            0
        }
        Err(fault) => {
            write_fault(errors, fault);
            status_of(fault)
        }
    }
}
