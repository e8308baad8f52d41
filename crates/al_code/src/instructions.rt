use al_core::{BinOp, Kind, RedOp, UnOp};

/// An instruction. A frame has locals and a stack; what an instruction takes from the stack and puts there is said
/// from the bottom to the top.
#[derive(Clone, Copy, Debug, PartialEq, Eq)]
pub enum Instr {
    /// Puts a number.
    Push(i64),
    /// Puts a local's value. A shared local goes through the view, here and at `SetLocal`.
    GetLocal(u32),
    /// Takes a value and sets a local.
    SetLocal(u32),
    /// Puts a pointer to the first word of a global.
    Global(u32),
    /// Takes a pointer and puts it back. Null traps.
    NotNull,
    /// Takes a pointer and puts the one so many words on.
    Plus(u32),
    /// Takes a pointer and an index, and puts a pointer to that element, of so many words.
    Elem(u32),
    /// Takes a pointer and puts the value that it leads to, read as one of the kind.
    Load(Kind),
    /// Takes a pointer and a value, and writes the value there.
    Store,
    /// Puts the top value again.
    Dup,
    /// Takes a value.
    Drop,
    /// Takes a value and puts the operator's result.
    Unary(UnOp),
    /// Takes a value and puts 1 where it holds as a condition, or 0.
    Truth,
    /// Takes two values and puts the operator's result.
    Binary(BinOp),
    /// Takes two pointers and puts whether they are equal (`true`), or whether they differ.
    Same(bool),
    /// Takes two numbers and puts the lesser or the greater.
    Choose(RedOp),
    /// Goes on at a place.
    Jump(u32),
    /// Takes a value and goes on at a place where it holds as a condition (`true`), or where it does not.
    JumpIf(bool, u32),
    /// Takes the arguments of a function and puts its value. It spends a step.
    Call(u32),
    /// Takes a value and gives it to the caller.
    Return,
    /// Takes an index and puts that number of the input.
    Input,
    /// Puts how many numbers the input has.
    Inputs,
    /// Takes how many elements of so many words, and puts a pointer to a new object.
    Calloc(u32),
    /// Takes a pointer, takes its object out of the memory, and puts 0.
    Free,
    /// Takes as many numbers as a text has holes, and prints it.
    Print(u32),
    /// Spends a step.
    Step,
    /// Takes the start of an annotated loop. Outside iterations the run stops here; inside it is an ordinary loop.
    Loop(u32),
    /// Ends an iteration of an annotated loop.
    EndIteration,
}
