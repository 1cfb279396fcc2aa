// A panel that stands alone and has room for its root only, so that each request is refused. It shows that the trait can be
// met, and what a refused request leaves to whoever lent the lists.
ghost use Rattle.std.specs.Prelude.{◌≡◌, ◌==◌, Some};
ghost use Rattle.engine.specs.Conflicts.{open_refusal};
ghost use Rattle.std.proofs.Math.Nat.{le_refl, le-add_right};
ghost use Rattle.stores.proofs.TableLaws.{lawful-blank};
ghost use Rattle.stores.specs.Making.{blank};

use crate::panels::Panels;
use crate::perform::{perform, run};
use crate::request::{Answer, Request};
use engine::answers::{Choice, Conflict, Meeting, Removal, Reported};
use engine::leaf::Kind;
use engine::lent::{Lists, ReportList, WorkList};
use engine::tally::Tally;
use lists::FrontList;
use paths::fault::{Cause, Fault, Refusal, Site, StoreFault};
use paths::grade::{Knobs, Setting, SettingParts};
use paths::path::Path;
use paths::stamp::Panel;
use stores::entry::{Entry, Slot};
use stores::making::blank_root;

#[derive(Drop)]
struct Alone {
    panel: Panel,
    ghost first: { panel.number ≡ 1 },
}

impl Alone {
    fn site(&self, path: Path) -> Site
        ensures { result ≡ record { path = path; panel = Some self.now.panel } }
    {
        Site {
            path,
            panel: Some(self.panel),
        }
    }

    // Why no conflict can be opened: only a leaf has one, and only with another panel.
    fn unopened(&self, path: Path) -> Fault
        ensures { open_refusal (blank self.now.panel 1) (blank self.now.panel 1) path ≡ Some result }
    {
        if path.is_leaf() {
            Fault::SamePanel(self.site(path))
        } else {
            Fault::NoLeaf(self.site(path))
        }
    }
}

impl Panels for Alone {
    ghost has = { λ k. k == 1 };

    ghost stores = { λ x k. blank x.panel 1 };

    ghost laws = { λ x k h. lawful-blank x.panel 1 (le_refl 1) (le-add_right 1 999) };

    fn find(&self, _panel: Panel, path: Path) -> Option<Entry> {
        if path == Path::root() {
            Some(blank_root().entry)
        } else {
            None
        }
    }

    fn next(&self, _panel: Panel, _path: Path) -> Option<Path> {
        None
    }

    fn write(&mut self, _panel: Panel, path: Path, setting: SettingParts) -> Result<u32, Fault> {
        let site = self.site(path);
        if !path.is_leaf() {
            return Err(Fault::NoLeaf(site));
        }
        let _ = Setting::of_parts(setting, site)?;
        Err(Fault::Store(
            site,
            StoreFault {
                cause: Cause::Full,
                height: 0,
            },
        ))
    }

    fn remove(&mut self, _panel: Panel, path: Path) -> Result<Removal, Fault> {
        Err(Fault::NothingToRemove(self.site(path)))
    }

    fn sync(
        &mut self,
        meeting: Meeting,
        _work: &mut WorkList<'_>,
        _report: &mut ReportList<'_>,
    ) -> Result<Tally, Fault> {
        Err(Fault::SamePanel(self.site(meeting.path)))
    }

    fn inspect(&self, meeting: Meeting) -> Result<Conflict, Fault> {
        Err(self.unopened(meeting.path))
    }

    fn resolve(&mut self, meeting: Meeting, _choice: Choice) -> Result<u32, Fault> {
        Err(self.unopened(meeting.path))
    }
}

// The number of a refusal, and 0 where the request is done.
fn refused(answer: Result<Answer, Fault>) -> u8 {
    match answer {
        Ok(Answer::Found(conflict)) => {
            let Conflict {
                meeting: _,
                theirs: _,
                ours: _,
            } = conflict;
            0
        }
        Ok(Answer::Clock(_)) => 0,
        Ok(Answer::Removed(_)) => 0,
        Ok(Answer::Synced(_)) => 0,
        Err(fault) => Refusal::from(fault).number,
    }
}

const LEAF: Path = Path {
    number: 0x0301_0101,
};

const PANEL: Panel = Panel { number: 1 };

const MEETING: Meeting = Meeting {
    source: PANEL,
    destination: PANEL,
    path: LEAF,
};

const SETTING: SettingParts = Knobs {
    lift: Some(7),
    gamma: None,
    gain: None,
    contrast: None,
};

#[test]
fn a_panel_alone_has_its_root_only(rt: HostRuntime) {
    let alone = Alone { panel: PANEL };
    assert!(rt; alone.find(PANEL, Path::root()) == Some(blank_root().entry));
    assert!(rt; alone.find(PANEL, LEAF).is_none());
    assert!(rt; alone.next(PANEL, Path::root()).is_none());
}

#[test]
fn each_request_is_refused_and_leaves_the_lists(rt: HostRuntime) {
    let mut slots = [
        blank_root(),
        Slot {
            path: LEAF,
            ..blank_root()
        },
    ];
    let before = slots;
    let mut conflicts = [
        Reported {
            leaf: LEAF,
            kind: Kind::Concurrent,
        },
        Reported {
            leaf: LEAF,
            kind: Kind::Tangled,
        },
    ];
    let reported = conflicts;
    let mut work = FrontList {
        slots: &mut slots,
        len: 1,
    };
    let mut report = FrontList {
        slots: &mut conflicts,
        len: 2,
    };
    let mut alone = Alone { panel: PANEL };
    let synced = alone.sync(MEETING, &mut work, &mut report);
    assert!(rt; refused(synced.map(Answer::Synced)) == 4);
    let mut lists = Lists {
        work: &mut work,
        report: &mut report,
    };
    let write = Request::Write(PANEL, LEAF, SETTING);
    assert!(rt; refused(perform(&mut alone, write, &mut lists)) == 8);
    let folder = Request::Write(PANEL, Path::root(), SETTING);
    assert!(rt; refused(perform(&mut alone, folder, &mut lists)) == 2);
    assert!(rt; refused(perform(&mut alone, Request::Remove(PANEL, LEAF), &mut lists)) == 5);
    assert!(rt; refused(perform(&mut alone, Request::Sync(MEETING), &mut lists)) == 4);
    assert!(rt; refused(perform(&mut alone, Request::Inspect(MEETING), &mut lists)) == 4);
    let choice = Request::Resolve(MEETING, Choice::Ours);
    assert!(rt; refused(perform(&mut alone, choice, &mut lists)) == 4);
    run(&mut alone, &[write, choice], &mut lists);
    assert!(rt; work.len == 1 && report.len == 2);
    assert!(rt; slots == before && conflicts == reported);
}
