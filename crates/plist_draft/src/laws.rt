//! A law of all drafts. It is the contract of a function that does nothing.
ghost use Rattle.plist_draft.specs.Laws.{AppendingKeeps};

/// A value that an object of a draft encodes is still encoded by it after more objects are
/// appended. This also holds for the items of an array and the entries of a dictionary that are not
/// appended yet.
pub fn appending_keeps()
    ensures { AppendingKeeps }
{}
