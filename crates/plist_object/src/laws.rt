//! Laws that hold of all files.
ghost use Rattle.plist_object.specs.Laws.{OneValueAtTop};

/// No file encodes two values at its top object.
pub fn one_value_at_top()
    ensures { OneValueAtTop }
{}
