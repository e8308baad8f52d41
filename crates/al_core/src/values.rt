/// An object of the memory, by a name that depends on no thread, chunk or attempt. All counts begin at 0.
#[derive(Clone, Copy, Debug, PartialEq, Eq, PartialOrd, Ord)]
pub enum Obj {
    /// The k-th global of the file.
    Global(u32),
    /// The k-th allocation outside annotated loops.
    Serial(u32),
    /// The k-th allocation of iteration j of execution e: `Iter(e, j, k)`.
    Iter(u32, u64, u32),
}

/// A value. The null pointer is `Int(0)`.
#[derive(Clone, Copy, Debug, PartialEq, Eq)]
pub enum Val {
    Int(i64),
    /// A pointer to a word of an object, by its offset in words.
    Ptr(Obj, u32),
}

/// A place of the memory.
#[derive(Clone, Copy, Debug, PartialEq, Eq, PartialOrd, Ord)]
pub enum Addr {
    /// A word of an object, by its offset.
    Word(Obj, u32),
    /// An object's length.
    Head(Obj),
    /// A local that the iterations of a loop share.
    Local(u32),
}

/// What a word is read as.
#[derive(Clone, Copy, Debug, PartialEq, Eq)]
pub enum Kind {
    Int,
    Ptr,
}

/// Why a program ends early.
#[derive(Clone, Copy, Debug, PartialEq, Eq)]
pub enum Trap {
    /// A null pointer is followed.
    Null,
    /// The object is not in the memory: it was freed.
    Missing,
    /// The word is outside its object, or an offset is outside 32 bits.
    Bounds,
    /// The word holds a value of the other kind.
    Kind,
    /// A divisor is 0.
    Divide,
    /// There is no such input number.
    Input,
    /// A loop makes more than 16,777,216 trips.
    Trips,
    /// The budget of steps is spent.
    Steps,
    /// An allocation is negative or passes the limit of words.
    Alloc,
    /// 256 calls are active.
    Depth,
    /// What is freed is a global, or a place inside an object.
    BadFree,
    /// The object that is freed is not in the memory.
    Freed,
}
