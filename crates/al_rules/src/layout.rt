use al_source::Name;
use sqlite_items::Items;

/// How large the structs and globals of a program are, in source order. A word has 64 bits.
#[derive(Drop)]
pub struct Layout {
    /// One for each struct item. Of two of one name the first counts.
    pub structs: Items<StructLayout>,
    /// The words of each global.
    pub globals: Items<u32>,
}

/// A struct of so many words, at most `OBJECT_WORDS`. Each field has the offset of its first word.
#[derive(Drop)]
pub struct StructLayout {
    pub name: Name,
    pub words: u32,
    pub offsets: Items<u32>,
}
