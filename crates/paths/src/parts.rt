// Values from the plain numbers that a caller hands in: lawful ones, or a refusal.
ghost use Rattle.std.specs.Prelude.{◌≡◌, ◌&&◌, not, nat_le};
ghost use Rattle.std.specs.Option.{option_map};
ghost use Rattle.paths.specs.declared.fault.Fault.TheVariants.{NoPath, OutOfRange};
ghost use Rattle.paths.specs.Faults.{nowhere};
ghost use Rattle.paths.specs.Parts.{MadeOf, stamp_parts, lawful_stamp, knobs_parts, lawful_knobs, grade_parts, lawful_grade, in_range, range_error, some_set, setting_parts, lawful_setting};
ghost use Rattle.paths.specs.Ranges.{is_knob, is_panel, is_time};
ghost use Rattle.paths.specs.Steps.{levels, is_number};

use crate::fault::{Fault, Site};
use crate::grade::{Grade, GradeParts, Knob, Knobs, Setting, SettingParts};
use crate::path::{Path, bytes_of};
use crate::stamp::{Panel, Stamp, StampParts, Time};

// A number is out of its range.
#[derive(Clone, Copy, PartialEq, Eq)]
pub struct RangeError;

impl From<RangeError> for Fault {
    ghost from_gives = { λ _ f. f ≡ OutOfRange nowhere };

    fn from(_: RangeError) -> Fault {
        Fault::OutOfRange(Site::nowhere())
    }
}

// The path that has this number, if any has: no step follows a missing one.
impl TryFrom<u32> for Path {
    type Error = Fault;

    ghost try_from_gives = { λ n r. MadeOf (λ p. p.number) n (is_number levels n) NoPath r };

    fn try_from(number: u32) -> Result<Path, Fault> {
        let [reel, scene, shot, node] = bytes_of(number);
        let gap = (reel == 0 && scene != 0)
            || (scene == 0 && shot != 0)
            || (shot == 0 && node != 0);
        if gap {
            Err(Fault::NoPath)
        } else {
            Ok(Path { number })
        }
    }
}

// A number from 1 to the last.
fn from_one_to(last: u32, number: u64) -> Result<u32, RangeError>
    ensures { MadeOf (λ n. n) number (nat_le 1 number && nat_le number last) range_error result }
{
    match u32::try_from(number) {
        Ok(number) if 1 <= number && number <= last => Ok(number),
        _ => Err(RangeError),
    }
}

impl TryFrom<u64> for Panel {
    type Error = RangeError;

    ghost try_from_gives = { λ n r. MadeOf (λ p. p.number) n (is_panel n) range_error r };

    fn try_from(number: u64) -> Result<Panel, RangeError> {
        let number = from_one_to(Panel::COUNT as u32, number)? as u8;
        Ok(Panel { number })
    }
}

impl TryFrom<u64> for Time {
    type Error = RangeError;

    ghost try_from_gives = { λ n r. MadeOf (λ t. t.value) n (is_time n) range_error r };

    fn try_from(value: u64) -> Result<Time, RangeError> {
        let value = from_one_to(Time::LAST, value)?;
        Ok(Time { value })
    }
}

impl TryFrom<i64> for Knob {
    type Error = RangeError;

    ghost try_from_gives = { λ x r. MadeOf (λ k. k.value) x (is_knob x) range_error r };

    fn try_from(value: i64) -> Result<Knob, RangeError> {
        match value {
            -1000..=1000 => Ok(Knob {
                value: value as i16,
            }),
            _ => Err(RangeError),
        }
    }
}

impl TryFrom<StampParts> for Stamp {
    type Error = Fault;

    ghost try_from_gives = { λ s r. MadeOf stamp_parts s (lawful_stamp s) (OutOfRange nowhere) r };

    fn try_from(parts: StampParts) -> Result<Stamp, Fault> {
        Ok(Stamp {
            panel: Panel::try_from(parts.panel)?,
            time: Time::try_from(parts.time)?,
        })
    }
}

impl TryFrom<Knobs<i64>> for Knobs<Knob> {
    type Error = RangeError;

    ghost try_from_gives = { λ k r. MadeOf knobs_parts k (lawful_knobs k) range_error r };

    fn try_from(parts: Knobs<i64>) -> Result<Knobs<Knob>, RangeError> {
        parts.try_map(Knob::try_from)
    }
}

impl TryFrom<GradeParts> for Grade {
    type Error = Fault;

    ghost try_from_gives = { λ g r. MadeOf grade_parts g (lawful_grade g) (OutOfRange nowhere) r };

    fn try_from(parts: GradeParts) -> Result<Grade, Fault> {
        Ok(Grade {
            knobs: Knobs::try_from(parts.knobs)?,
            stamp: Stamp::try_from(parts.stamp)?,
            birth: Stamp::try_from(parts.birth)?,
        })
    }
}

// A knob that may be left out.
fn optional_knob(value: Option<i64>) -> Result<Option<Knob>, RangeError>
    ensures { MadeOf (option_map (λ k. k.value)) value (in_range value) range_error result }
{
    value.map(Knob::try_from).transpose()
}

impl SettingParts {
    // Whether every knob is left out.
    fn is_empty(self) -> bool
        ensures { result ≡ not (some_set self) }
    {
        matches!(
            (self.lift, self.gamma, self.gain, self.contrast),
            (None, None, None, None)
        )
    }
}

impl Setting {
    // One to four knobs in range, or the refusal at the call's site, which is no part of the knobs: so it is no `TryFrom`.
    pub fn of_parts(parts: SettingParts, site: Site) -> Result<Setting, Fault>
        ensures { MadeOf setting_parts parts (lawful_setting parts) (OutOfRange site) result }
    {
        if parts.is_empty() {
            return Err(Fault::OutOfRange(site));
        }
        let knobs = parts
            .try_map(optional_knob)
            .map_err(|_| Fault::OutOfRange(site))?;
        Ok(Setting { knobs })
    }
}
