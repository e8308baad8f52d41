use al_source::Token;

/// Where on its line a place of a source is. A hash stands as its start and its line.
#[derive(Clone, Copy, Debug)]
pub enum Place {
    /// After nothing but blanks and comments.
    Fresh,
    /// After a token.
    Inside,
    /// After a hash that begins a directive, before the directive's name.
    Hash(u32, u32),
    /// After the directive's name `pragma`.
    Pragma(u32, u32),
    /// In a line that is skipped.
    Skipped,
    /// In an annotation, after its front.
    Note,
}

/// A place of a source: how many bytes are before it, and its line, from 1.
#[derive(Clone, Copy, Debug)]
pub struct Spot {
    pub at: u32,
    pub line: u32,
    pub place: Place,
}

/// What stands next at a spot: its length in bytes, the token that it is, if it is one, and the place after it.
#[derive(Drop)]
pub struct Next {
    pub len: u32,
    pub token: Option<Token>,
    pub place: Place,
}
