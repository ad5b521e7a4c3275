//! What is wrong with a line of the log storage's filters.

/// What is wrong with a line of the log storage's filters, or with the whole text.
#[derive(Clone, Copy, Debug, PartialEq, Eq)]
pub enum StorageKind {
    /// It hasn't six fields.
    Fields,
    /// The name isn't 1 to 16 letters, digits or `_`.
    Name,
    /// An application or a context has no id of this name.
    Id,
    /// There is no such level.
    Level,
    /// A size isn't of 1 to 10 digits.
    Number,
    /// A size is out of its range.
    Sizes,
    /// An earlier filter has this name.
    Twice,
    /// There are 16 filters before it.
    TooMany,
    /// The text has more than 16,777,216 bytes.
    Size,
}
