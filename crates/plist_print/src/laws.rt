//! Laws of all printed texts. Each law is the contract of a function that does nothing.
ghost use Rattle.plist_print.specs.Laws.{PrintTellsValuesApart, PrintIsKnownByItsFront};
ghost use Rattle.plist_print.specs.Laws.{PrintIsBounded};

/// Two property lists have equal printed texts if and only if they are equal.
pub fn print_tells_values_apart()
    ensures { PrintTellsValuesApart }
{}

/// No printed text is a proper prefix of another of the same level. If two texts begin with printed
/// texts of one level and are equal, then the values and the rests are equal.
pub fn print_is_known_by_its_front()
    ensures { PrintIsKnownByItsFront }
{}

/// A printed text has at most five bytes for each byte of the payload. For each node it has at most
/// 70 more, and four for each level of the value up to 32.
pub fn print_is_bounded()
    ensures { PrintIsBounded }
{}
