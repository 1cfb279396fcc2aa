// Panels that stand together. Each call names its panels by their numbers.
ghost use Rattle.std.specs.Prelude.{◌≡◌, ℕ, Bool, true, ◌&&◌, length, OnErr};
ghost use Rattle.engine.specs.Acts.{Writes, Removes};
ghost use Rattle.engine.specs.Conflicts.{Opens};
ghost use Rattle.engine.specs.Syncs.{Syncs, report_after, report_filled, WorkAfter};
ghost use Rattle.stores.specs.Meaning.{Lawful};
ghost use Rattle.stores.specs.Slots.{lookup, next_after};
ghost use Rattle.history.specs.Requests.{Resolves, Untouched};
ghost use Rattle.history.specs.Runs.{Stores, OnlyAt};

use engine::answers::{Choice, Conflict, Meeting, Removal};
use engine::lent::{ReportList, WorkList};
use engine::tally::Tally;
use paths::fault::Fault;
use paths::grade::SettingParts;
use paths::path::Path;
use paths::stamp::Panel;
use stores::entry::Entry;

pub trait Panels {
    // the numbers of the panels that take part; each call asks for those it names, since a number that shows it in its type
    // would make every request generic over its panels
    ghost has: { ℕ → Bool };

    // the store of each
    ghost stores: { Self → Stores };

    // what a make of panels keeps in its type says so much
    ghost laws: { (x : Self) → (k : ℕ) → has k ≡ true → Lawful (stores x k) };

    // Four calls are handed a panel and a path: two plain arguments, where a struct would say no more.

    // The entry of a panel at a path.
    fn find(&self, panel: Panel, path: Path) -> Option<Entry>
        requires { has panel.number ≡ true }
        ensures { result ≡ lookup (stores self.now panel.number).entries path.number };

    // The least path after this one that a panel has entered.
    fn next(&self, panel: Panel, path: Path) -> Option<Path>
        requires { has panel.number ≡ true }
        ensures { result ≡ next_after (stores self.now panel.number).entries path.number };

    fn write(&mut self, panel: Panel, path: Path, setting: SettingParts) -> Result<u32, Fault>
        requires { has panel.number ≡ true }
        ensures done { Writes (stores self.old panel.number) path setting result (stores self.new panel.number) }
        // of two moments, here and below, so that no type can keep it: no other panel changed
        ensures only { OnlyAt panel.number (stores self.old) (stores self.new) };

    fn remove(&mut self, panel: Panel, path: Path) -> Result<Removal, Fault>
        requires { has panel.number ≡ true }
        ensures done { Removes (stores self.old panel.number) path result (stores self.new panel.number) }
        ensures only { OnlyAt panel.number (stores self.old) (stores self.new) };

    // Refills the report from its front; what the work list holds after it is open, unless the sync is refused. The lists come
    // apart: of a struct that holds references to both, a sync would have to promise besides that these are still the same.
    fn sync(
        &mut self,
        meeting: Meeting,
        work: &mut WorkList<'_>,
        report: &mut ReportList<'_>,
    ) -> Result<Tally, Fault>
        requires { (has meeting.source.number && has meeting.destination.number) ≡ true }
        ensures done { Syncs (stores self.old meeting.source.number) (stores self.old meeting.destination.number) meeting.path (length work.old.slots.now) (length report.old.slots.now) result (stores self.new meeting.destination.number) }
        ensures only { OnlyAt meeting.destination.number (stores self.old) (stores self.new) }
        ensures reported { report.new.slots.now ≡ report_after (stores self.old meeting.source.number) (stores self.old meeting.destination.number) meeting.path result report.old.slots.now }
        ensures filled { report.new.len ≡ report_filled (stores self.old meeting.source.number) (stores self.old meeting.destination.number) meeting.path result report.old.len }
        ensures worked { WorkAfter result work.old.slots.now work.new.slots.now }
        ensures idle { OnErr result (Untouched work.old work.new) }
        ensures work_lent { work.new.slots.ghost_name ≡ work.old.slots.ghost_name }
        ensures report_lent { report.new.slots.ghost_name ≡ report.old.slots.ghost_name };

    // Opens the conflict at a leaf and leaves it.
    fn inspect(&self, meeting: Meeting) -> Result<Conflict, Fault>
        requires { (has meeting.source.number && has meeting.destination.number) ≡ true }
        ensures { Opens (stores self.now meeting.source.number) (stores self.now meeting.destination.number) meeting.path result };

    // Opens the conflict at a leaf and ends it by a choice; the clock after it.
    fn resolve(&mut self, meeting: Meeting, choice: Choice) -> Result<u32, Fault>
        requires { (has meeting.source.number && has meeting.destination.number) ≡ true }
        ensures done { Resolves (stores self.old meeting.source.number) (stores self.old meeting.destination.number) meeting.path choice result (stores self.new meeting.destination.number) }
        ensures only { OnlyAt meeting.destination.number (stores self.old) (stores self.new) };
}
