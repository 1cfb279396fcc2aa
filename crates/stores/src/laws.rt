// What holds of the entries of every store. Nothing runs here: each contract is the law.
ghost use Rattle.stores.specs.StoreLaws.{LookupLaws, EqualLookups, BoundsLaws};

// What is found after a put or a drop, how many entries there are then, and what comes next.
pub fn look_ups_follow_changes()
    ensures { LookupLaws }
{}

// Two stores with the same look-ups have the same entries.
pub fn look_ups_tell_all()
    ensures { EqualLookups }
{}

// What is known at a covered path lies within the bounds, and bounds only narrow below: so a folder may be passed by.
pub fn bounds_hold_below()
    ensures { BoundsLaws }
{}
