//! The files of the worked examples.

/// The text of a dictionary with the keys b and a.
pub const TABLE_TEXT: &[u8] = b"{b=a;a=b;}";

/// The text written for its value.
pub const WRITTEN_TEXT: &[u8] = b"{\na = b;\nb = a;\n}\n";

/// Its canonical file.
pub const TABLE: &[u8] =
    b"bplist00\xd2\x01\x02\x02\x01\x51a\x51b\x08\x0d\x0f\0\0\0\0\0\0\x01\x01\0\0\0\0\0\0\0\x03\
      \0\0\0\0\0\0\0\0\0\0\0\0\0\0\0\x11";

/// The dictionary with its keys in the other order.
pub const UNSORTED: &[u8] =
    b"bplist00\xd2\x01\x02\x02\x01\x51b\x51a\x08\x0d\x0f\0\0\0\0\0\0\x01\x01\0\0\0\0\0\0\0\x03\
      \0\0\0\0\0\0\0\0\0\0\0\0\0\0\0\x11";

/// The dictionary with the objects of its values before those of its keys.
pub const VALUES_FIRST: &[u8] =
    b"bplist00\xd2\x02\x01\x01\x02\x51b\x51a\x08\x0d\x0f\0\0\0\0\0\0\x01\x01\0\0\0\0\0\0\0\x03\
      \0\0\0\0\0\0\0\0\0\0\0\0\0\0\0\x11";

/// A text with a duplicate key.
pub const TWICE: &[u8] = b"{a;a=b;}";

/// The number 1 as a real of four bytes.
pub const REAL4: &[u8] =
    b"bplist00\x22\x3f\x80\0\0\x08\0\0\0\0\0\0\x01\x01\0\0\0\0\0\0\0\x01\0\0\0\0\0\0\0\0\0\0\0\
      \0\0\0\0\x0d";

/// The number 1 as a real of eight bytes.
pub const REAL8: &[u8] =
    b"bplist00\x23\x3f\xf0\0\0\0\0\0\0\x08\0\0\0\0\0\0\x01\x01\0\0\0\0\0\0\0\x01\0\0\0\0\0\0\0\
      \0\0\0\0\0\0\0\0\x11";

/// The boolean true.
pub const TRUE: &[u8] =
    b"bplist00\x09\x08\0\0\0\0\0\0\x01\x01\0\0\0\0\0\0\0\x01\0\0\0\0\0\0\0\0\0\0\0\0\0\0\0\x09";
