use sqlite_items::Items;

pub type Bytes = Items<u8>;

/// An identifier, by its bytes.
pub type Name = Items<u8>;

/// The text of a `printf`. No `Plain` is empty, and no two stand side by side.
pub type Format = Items<Piece>;

#[derive(Drop)]
pub enum Piece {
    /// Bytes that are printed as they stand.
    Plain(Bytes),
    /// A place where an argument is printed in decimal.
    Number,
}
