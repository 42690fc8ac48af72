use ps_base::List;

/// A token of the filter language.
#[derive(Drop)]
pub enum Token {
    /// A letter or `_`, followed by letters, digits, `_` and `-`.
    Word(List<u8>),
    /// The text between two quotation marks, with its escapes undone.
    Quoted(List<u8>),
    /// One of `( ) : . = , -`.
    Symbol(u8),
    /// `!=`.
    Differs,
    /// A byte that begins no token, or a string that doesn't end or has an unknown escape.
    Strange,
    /// The end of the text.
    End,
}

/// A token with the byte at which it begins.
#[derive(Drop)]
pub struct Placed {
    pub at: u32,
    pub token: Token,
}
