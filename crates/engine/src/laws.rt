// What holds of the leaf rule for all sides, and of the definitions of the calls for all stores. Nothing runs here: each
// contract is the law.
ghost use Rattle.engine.specs.ActLaws.{WriteSettles, RemoveSettles, ChoiceSettles, ActsKeepLawful};
ghost use Rattle.engine.specs.LeafLaws.{WorkedLeaves, Symmetric, NotOverKnown, OneStamp};
ghost use Rattle.engine.specs.SyncLaws.{PassedIsKnown, SyncSettles, SyncKeepsLawful};

// The rule at eight leaves, each computed.
pub fn worked_leaves()
    ensures { WorkedLeaves }
{}

// With the sides exchanged, what is taken or removed is kept, and what is in conflict stays so.
pub fn rule_is_symmetric()
    ensures { Symmetric }
{}

// A side is never overwritten by one whose stamp it already knows.
pub fn known_stamp_never_overwrites()
    ensures { NotOverKnown }
{}

// Sides of one stamp are never in conflict.
pub fn one_stamp_is_kept()
    ensures { OneStamp }
{}

// In a folder that a sync passes by, the destination knows all that the source knows.
pub fn passed_folder_is_known()
    ensures { PassedIsKnown }
{}

// After a sync the destination knows at every path what it should, and enters a path exactly if that is due.
pub fn sync_settles()
    ensures { SyncSettles }
{}

// A sync that is not refused leaves a lawful store: in path order, with the root, grades at leaves only, within capacity.
pub fn sync_keeps_lawful()
    ensures { SyncKeepsLawful }
{}

// A write changes the grade at its leaf, and what is known nowhere.
pub fn write_settles()
    ensures { WriteSettles }
{}

// A removal takes the covered grades, and changes what is known nowhere.
pub fn remove_settles()
    ensures { RemoveSettles }
{}

// A choice changes grade and vector at its leaf, and nothing elsewhere.
pub fn choice_settles()
    ensures { ChoiceSettles }
{}

// A removal and a choice that is not refused leave a lawful store, and a removal never needs room.
pub fn acts_keep_lawful()
    ensures { ActsKeepLawful }
{}
