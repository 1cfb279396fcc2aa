// Why a call is refused, and what the refusal holds.
ghost use Rattle.std.specs.Prelude.{◌≡◌};
ghost use Rattle.paths.specs.Faults.{nowhere, at, store_number, refusal};

use crate::path::Path;
use crate::stamp::Panel;

#[derive(Clone, Copy, PartialEq, Eq)]
pub enum Cause {
    Full,
    LastTime,
}

// A store's own refusal of a change, with the height of the store that was asked.
#[derive(Clone, Copy, PartialEq, Eq)]
pub struct StoreFault {
    pub cause: Cause,
    pub height: u8,
}

// The one path of a call and the panel that it acts on.
#[derive(Clone, Copy, PartialEq, Eq)]
pub struct Site {
    pub path: Path,
    pub panel: Option<Panel>,
}

#[derive(Clone, Copy, PartialEq, Eq)]
pub enum Fault {
    NoPath,
    NoLeaf(Site),
    OutOfRange(Site),
    SamePanel(Site),
    NothingToRemove(Site),
    ShortWorkList(Site),
    ShortReport(Site),
    // the store's fault whole: it is full, or at the last time
    Store(Site, StoreFault),
    NoConflict(Site),
    StaleConflict(Site),
    BadStore,
    BadJournal { place: usize },
}

// A refusal in numbers, the form in which it is shown: path and panel are 0 where there is none.
#[derive(Clone, Copy, PartialEq, Eq)]
pub struct Refusal {
    pub number: u8,
    pub path: u32,
    pub panel: u8,
    pub store: Option<StoreFault>,
    pub place: Option<usize>,
}

// The number by which refusals name it.
impl From<Cause> for u8 {
    ghost from_gives = { λ c n. n ≡ store_number c };

    fn from(cause: Cause) -> u8 {
        match cause {
            Cause::Full => 8,
            Cause::LastTime => 9,
        }
    }
}

impl Site {
    // Of what is refused before there is a path or a panel.
    pub fn nowhere() -> Site
        ensures { result ≡ nowhere }
    {
        Site {
            path: Path::root(),
            panel: None,
        }
    }

    fn refusal(self, number: u8) -> Refusal
        ensures { result ≡ at number self }
    {
        Refusal {
            number,
            path: self.path.number,
            panel: self.panel.map_or(0, |panel| panel.number),
            store: None,
            place: None,
        }
    }
}

impl From<Fault> for Refusal {
    ghost from_gives = { λ f r. r ≡ refusal f };

    fn from(fault: Fault) -> Refusal {
        match fault {
            Fault::NoPath => Site::nowhere().refusal(1),
            Fault::NoLeaf(site) => site.refusal(2),
            Fault::OutOfRange(site) => site.refusal(3),
            Fault::SamePanel(site) => site.refusal(4),
            Fault::NothingToRemove(site) => site.refusal(5),
            Fault::ShortWorkList(site) => site.refusal(6),
            Fault::ShortReport(site) => site.refusal(7),
            Fault::Store(site, fault) => Refusal {
                store: Some(fault),
                ..site.refusal(u8::from(fault.cause))
            },
            Fault::NoConflict(site) => site.refusal(10),
            Fault::StaleConflict(site) => site.refusal(11),
            Fault::BadStore => Site::nowhere().refusal(12),
            Fault::BadJournal { place } => Refusal {
                place: Some(place),
                ..Site::nowhere().refusal(13)
            },
        }
    }
}
