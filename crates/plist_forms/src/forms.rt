//! The forms in which a value can be written.

/// The form in which a property list is written.
#[derive(Clone, Copy, Debug, PartialEq, Eq)]
pub enum Form {
    /// The canonical binary file.
    Binary1,
    /// The OpenStep text.
    OpenStep,
}
