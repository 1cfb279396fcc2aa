// The examples of docs/, run.
use crate::fault::{Cause, Fault, Refusal, Site, StoreFault};
use crate::grade::{Setting, SettingParts};
use crate::path::Path;
use crate::stamp::{Panel, Stamp, Time};
use crate::vector::Vector;

fn number_of(text: &[u8]) -> Option<u32> {
    Path::try_from(text).ok().map(|path| path.number)
}

#[test]
fn paths_have_numbers(rt: HostRuntime) {
    assert!(rt; number_of(b".") == Some(0));
    assert!(rt; number_of(b"3/1") == Some(0x0301_0000));
    assert!(rt; number_of(b"3/1/4/255") == Some(0x0301_04ff));
    assert!(rt; Path::try_from(0x0300_0100u32).is_err());
}

#[test]
fn other_texts_are_no_paths(rt: HostRuntime) {
    let texts: [&[u8]; 8] = [
        b"",
        b"/",
        b"3/",
        b"03",
        b"256",
        b"3/0/1/1",
        b"1/2/3/4/5",
        b"3 /1",
    ];
    for text in texts {
        assert!(rt; Path::try_from(text).is_err());
    }
}

#[test]
fn folders_cover_what_begins_with_their_steps(rt: HostRuntime) {
    let shot = Path {
        number: 0x0301_0400,
    };
    let node = Path {
        number: 0x0301_0407,
    };
    let other = Path {
        number: 0x0301_0500,
    };
    assert!(rt; shot.covers(node) && shot.covers(shot));
    assert!(rt; !node.covers(shot) && !other.covers(node));
    assert!(rt; node.is_leaf() && shot.depth() == 3);
    assert!(rt; node.parent() == Some(shot));
}

#[test]
fn stamps_are_known_up_to_their_time(rt: HostRuntime) {
    let stamp = Stamp {
        panel: Panel { number: 2 },
        time: Time { value: 4 },
    };
    assert!(rt;
        Vector {
            places: [0, 4, 0, 0, 0, 0, 0, 0],
        }
        .knows(stamp)
    );
    assert!(rt;
        !Vector {
            places: [9, 3, 9, 9, 9, 9, 9, 9],
        }
        .knows(stamp)
    );
}

#[test]
fn refusals_have_their_numbers(rt: HostRuntime) {
    let site = Site::nowhere();
    let full = StoreFault {
        cause: Cause::Full,
        height: 2,
    };
    assert!(rt; Refusal::from(Fault::NoPath).number == 1);
    assert!(rt; Refusal::from(Fault::Store(site, full)).number == 8);
    assert!(rt; Refusal::from(Fault::BadJournal { place: 14 }).place == Some(14));
    let knobs = SettingParts {
        lift: None,
        gamma: Some(1001),
        gain: None,
        contrast: None,
    };
    let refusal = Setting::of_parts(knobs, site).err().map(Refusal::from);
    assert!(rt; refusal.map(|refusal| refusal.number) == Some(3));
}
