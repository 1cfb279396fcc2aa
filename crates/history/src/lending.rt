// Requests for callers that keep the two lists apart, or only their places: what is promised of the lists reaches them.
ghost use Rattle.std.specs.Prelude.{◌≡◌, true, length, is_ok};
ghost use Rattle.history.specs.Requests.{names, Performs, report_left, report_count, WorkLeft, PlacesLeft, Asks, Continues};

use crate::panels::Panels;
use crate::perform::perform;
use crate::request::{Answer, Request};
use engine::answers::Reported;
use engine::lent::{Lists, ReportList, WorkList};
use lists::FrontList;
use paths::fault::Fault;
use stores::entry::Slot;

// One request, by a caller that holds each list by itself.
pub fn perform_with<P: Panels>(
    panels: &mut P,
    request: Request,
    work: &mut WorkList<'_>,
    report: &mut ReportList<'_>,
) -> Result<Answer, Fault>
    requires { names P.Panels.has request ≡ true }
    ensures done { Performs (length work.old.slots.now) (length report.old.slots.now) request (P.Panels.stores panels.old) result (P.Panels.stores panels.new) }
    ensures law { Continues P.Panels.has (Asks (length work.old.slots.now) (length report.old.slots.now) request) (P.Panels.stores panels.old) (P.Panels.stores panels.new) }
    ensures reported { report.new.slots.now ≡ report_left request (P.Panels.stores panels.old) (is_ok result) report.old.slots.now }
    ensures filled { report.new.len ≡ report_count request (P.Panels.stores panels.old) (is_ok result) report.old.len }
    ensures work { length work.new.slots.now ≡ length work.old.slots.now }
    ensures worked { WorkLeft request (is_ok result) work.old work.new }
    ensures work_lent { work.new.slots.ghost_name ≡ work.old.slots.ghost_name }
    ensures report_lent { report.new.slots.ghost_name ≡ report.old.slots.ghost_name }
{
    let mut lists = Lists { work, report };
    perform(panels, request, &mut lists)
}

// One request, by a caller that holds only the places of the lists, which are empty before it. Of the report it learns what the
// places hold, and not how many are filled.
pub fn perform_over<P: Panels>(
    panels: &mut P,
    request: Request,
    work: &mut [Slot],
    report: &mut [Reported],
) -> Result<Answer, Fault>
    requires { names P.Panels.has request ≡ true }
    ensures done { Performs (length work.old) (length report.old) request (P.Panels.stores panels.old) result (P.Panels.stores panels.new) }
    ensures law { Continues P.Panels.has (Asks (length work.old) (length report.old) request) (P.Panels.stores panels.old) (P.Panels.stores panels.new) }
    ensures reported { report.new ≡ report_left request (P.Panels.stores panels.old) (is_ok result) report.old }
    ensures work { length work.new ≡ length work.old }
    ensures worked { PlacesLeft request (is_ok result) work.old work.new }
{
    let mut work_list = FrontList {
        slots: work,
        len: 0,
    };
    let mut report_list = FrontList {
        slots: report,
        len: 0,
    };
    perform_with(panels, request, &mut work_list, &mut report_list)
}
