/// Why the bytes don't begin with a field.
#[derive(Clone, Copy, Debug, PartialEq, Eq)]
pub enum FieldError {
    /// Too few bytes remain.
    Short,
    /// The byte of a flag, or the first byte of an option, is above 1.
    BadTag,
}
