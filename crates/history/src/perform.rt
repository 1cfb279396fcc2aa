// Requests worked through on panels, whatever their stores are made of. What they leave is a run, and so the law holds of
// these very panels.
ghost use Rattle.std.specs.Prelude.{◌≡◌, true, length, is_ok};
ghost use Rattle.history.specs.Requests.{names, all_name, Performs, report_left, report_count, WorkLeft, StayLent, Asks, AsksAll, PerformsAll, Continues};

use crate::panels::Panels;
use crate::request::{Answer, Request};
use engine::answers::Conflict;
use engine::lent::Lists;
use paths::fault::Fault;

// One request, which is data, so that a list of them can be kept: each is one call. A sync refills the report from its front.
pub fn perform<P: Panels>(
    panels: &mut P,
    request: Request,
    lists: &mut Lists<'_, '_, '_, '_>,
) -> Result<Answer, Fault>
    requires { names P.Panels.has request ≡ true }
    ensures done { Performs (length lists.old.work.now.slots.now) (length lists.old.report.now.slots.now) request (P.Panels.stores panels.old) result (P.Panels.stores panels.new) }
    ensures law { Continues P.Panels.has (Asks (length lists.old.work.now.slots.now) (length lists.old.report.now.slots.now) request) (P.Panels.stores panels.old) (P.Panels.stores panels.new) }
    ensures reported { lists.new.report.now.slots.now ≡ report_left request (P.Panels.stores panels.old) (is_ok result) lists.old.report.now.slots.now }
    ensures filled { lists.new.report.now.len ≡ report_count request (P.Panels.stores panels.old) (is_ok result) lists.old.report.now.len }
    ensures work { length lists.new.work.now.slots.now ≡ length lists.old.work.now.slots.now }
    ensures worked { WorkLeft request (is_ok result) lists.old.work.now lists.new.work.now }
    ensures lent { StayLent lists.old lists.new }
{
    match request {
        Request::Write(panel, path, setting) => {
            panels.write(panel, path, setting).map(Answer::Clock)
        }
        Request::Remove(panel, path) => panels.remove(panel, path).map(Answer::Removed),
        Request::Sync(meeting) => panels
            .sync(meeting, lists.work, lists.report)
            .map(Answer::Synced),
        Request::Inspect(meeting) => panels.inspect(meeting).map(Answer::Found),
        Request::Resolve(meeting, choice) => panels.resolve(meeting, choice).map(Answer::Clock),
    }
}

// Takes an answer that nobody reads apart. A conflict cannot be dropped, nor can an arm that stands for several answers.
fn pass_by(answer: Result<Answer, Fault>) {
    match answer {
        Ok(Answer::Found(conflict)) => {
            let Conflict {
                meeting: _,
                theirs: _,
                ours: _,
            } = conflict;
        }
        Ok(Answer::Clock(_)) => {}
        Ok(Answer::Removed(_)) => {}
        Ok(Answer::Synced(_)) => {}
        Err(_) => {}
    }
}

// A list of requests, one after the other; those that are refused change nothing.
pub fn run<P: Panels>(panels: &mut P, requests: &[Request], lists: &mut Lists<'_, '_, '_, '_>)
    requires { all_name P.Panels.has requests.now ≡ true }
    ensures law { Continues P.Panels.has (AsksAll (length lists.old.work.now.slots.now) (length lists.old.report.now.slots.now) requests.now) (P.Panels.stores panels.old) (P.Panels.stores panels.new) }
    ensures done { PerformsAll (length lists.old.work.now.slots.now) (length lists.old.report.now.slots.now) requests.now (record { stores = P.Panels.stores panels.old; lists = lists.old }) (record { stores = P.Panels.stores panels.new; lists = lists.new }) }
    ensures work { length lists.new.work.now.slots.now ≡ length lists.old.work.now.slots.now }
    ensures lent { StayLent lists.old lists.new }
{
    for request in requests {
        pass_by(perform(panels, *request, lists));
    }
}
