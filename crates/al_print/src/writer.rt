//! Text as it grows, token by token.

ghost use Rattle.std.specs.Prelude.{◌≡◌, ◌++◌, [], true, OnOk, pos};
ghost use Rattle.al_source.specs.declared.tokens.TokenKind.TheVariants as token;
ghost use Rattle.al_print.specs.Text as spec;
ghost use Rattle.al_print.specs.Writing.{appended, written};

use al_grammar::{key_text, mark_text};
use al_source::{Key, Mark, Piece};
use itoa::Buffer;
use sqlite_items::Items;
use std::alloc::{AllocError, Global};

/// The text so far, and whether a line begins at its end. Each method that takes a token writes it with what stands
/// before and after it.
#[derive(Drop)]
pub struct Writer {
    pub text: Items<u8>,
    pub begins: bool,
}

#[tactic(auto, unfolding(crate::specs::Writing::written))]
impl Writer {
    pub fn new(alloc: Global) -> Writer
        ensures { result ≡ record { text = []; begins = true } }
    {
        Writer {
            text: Items::new(alloc),
            begins: true,
        }
    }

    fn bytes(&mut self, bytes: &[u8]) -> Result<(), AllocError>
        ensures { OnOk result (self.new ≡ appended self.old bytes.now) }
    {
        let mut left = bytes;
        while let [byte, rest @ ..] = left {
            self.text.push(*byte)?;
            left = rest;
        }
        Ok(())
    }

    /// What stands after a token: a line feed or a blank.
    fn end(&mut self, ends_line: bool) -> Result<(), AllocError>
        ensures { OnOk result (self.new
            ≡ record { text = self.old.text ++ spec.end_text ends_line; begins = ends_line }) }
    {
        self.text.push(if ends_line { b'\n' } else { b' ' })?;
        self.begins = ends_line;
        Ok(())
    }

    fn ended(&mut self, bytes: &[u8], ends_line: bool) -> Result<(), AllocError>
        ensures { OnOk result (self.new
            ≡ record { text = self.old.text ++ bytes.now ++ spec.end_text ends_line; begins = ends_line }) }
    {
        self.bytes(bytes)?;
        self.end(ends_line)
    }

    pub fn word(&mut self, name: &[u8]) -> Result<(), AllocError>
        ensures { OnOk result (self.new ≡ written self.old (token.Word name.now)) }
    {
        self.ended(name, false)
    }

    pub fn key(&mut self, key: Key) -> Result<(), AllocError>
        ensures { OnOk result (self.new ≡ written self.old (token.Key key)) }
    {
        self.ended(key_text(key), false)
    }

    pub fn mark(&mut self, mark: Mark) -> Result<(), AllocError>
        ensures { OnOk result (self.new ≡ written self.old (token.Mark mark)) }
    {
        self.ended(mark_text(mark), ends_line(mark))
    }

    pub fn number(&mut self, n: i64) -> Result<(), AllocError>
        ensures { OnOk result (self.new ≡ written self.old (token.Number n)) }
    {
        let mut buffer = Buffer::new();
        self.ended(buffer.format(n).as_bytes(), false)
    }

    pub fn natural(&mut self, n: u64) -> Result<(), AllocError>
        ensures { OnOk result (self.new ≡ written self.old (token.Number (pos n))) }
    {
        let mut buffer = Buffer::new();
        self.ended(buffer.format(n).as_bytes(), false)
    }

    /// A byte of a text between quotes.
    fn byte(&mut self, byte: u8) -> Result<(), AllocError>
        ensures { OnOk result (self.new ≡ appended self.old (spec.byte_text byte)) }
    {
        match byte {
            b'\n' => self.bytes(b"\\n"),
            b'\t' => self.bytes(b"\\t"),
            b'\\' => self.bytes(b"\\\\"),
            b'"' => self.bytes(b"\\\""),
            b'%' => self.bytes(b"%%"),
            _ => self.bytes(&[byte]),
        }
    }

    fn plain(&mut self, bytes: &[u8]) -> Result<(), AllocError>
        ensures { OnOk result (self.new ≡ appended self.old (spec.bytes_text bytes.now)) }
    {
        let mut left = bytes;
        while let [byte, rest @ ..] = left {
            self.byte(*byte)?;
            left = rest;
        }
        Ok(())
    }

    fn piece(&mut self, piece: &Piece) -> Result<(), AllocError>
        ensures { OnOk result (self.new ≡ appended self.old (spec.piece_text piece.now)) }
    {
        match piece {
            Piece::Plain(bytes) => self.plain(bytes.as_slice()),
            Piece::Number => self.bytes(b"%ld"),
        }
    }

    fn pieces(&mut self, pieces: &[Piece]) -> Result<(), AllocError>
        ensures { OnOk result (self.new ≡ appended self.old (spec.format_text pieces.now)) }
    {
        let mut left = pieces;
        while let [piece, rest @ ..] = left {
            self.piece(piece)?;
            left = rest;
        }
        Ok(())
    }

    pub fn format(&mut self, pieces: &[Piece]) -> Result<(), AllocError>
        ensures { OnOk result (self.new ≡ written self.old (token.Text pieces.now)) }
    {
        self.bytes(b"\"")?;
        self.pieces(pieces)?;
        self.ended(b"\"", false)
    }

    /// A line feed, where no line begins.
    fn line(&mut self) -> Result<(), AllocError>
        ensures { OnOk result (self.new ≡ appended self.old (spec.front_text token.Alter self.old.begins)) }
    {
        if self.begins {
            Ok(())
        } else {
            self.bytes(b"\n")
        }
    }

    /// The front of an annotation, which begins a line.
    pub fn alter(&mut self) -> Result<(), AllocError>
        ensures { OnOk result (self.new ≡ written self.old token.Alter) }
    {
        self.line()?;
        self.ended(b"#pragma alter", false)
    }

    pub fn end_alter(&mut self) -> Result<(), AllocError>
        ensures { OnOk result (self.new ≡ written self.old token.EndAlter) }
    {
        self.end(true)
    }
}

fn ends_line(mark: Mark) -> bool
    ensures { result ≡ spec.ends_line (token.Mark mark) }
{
    matches!(mark, Mark::Semicolon | Mark::LeftBrace | Mark::RightBrace)
}
