// Cuts the characters of a text into tokens and lines, one character after the other.

ghost use Rattle.std.specs.Prelude.{◌≡◌, ◌+◌, ◌<◌, IfOk, length, ◌^◌};
ghost use Rattle.std.specs.Str.{chars};
ghost use Rattle.pi_asmtext.specs.Cutting.{at_start, with_character, token_end, token_start, unquoted_step, line_step, ended_line, text_step, whole_cut};
ghost use Rattle.pi_asmtext.specs.Tokens.{lines_of, line_count};
ghost use Rattle.pi_asmtext.specs.Walking.{AllSmall};

use crate::file::{AsmFile, AsmLine, Token, Tokens};
use pi_model::listed::Units;
use std::alloc::{AllocError, Global};

/// Where in a line the next character stands.
#[derive(Clone, Copy, Debug, PartialEq, Eq)]
pub(crate) enum Mode {
    Between,
    Run,
    Quoted,
    /// In a string, behind a backslash.
    Escaped,
    Comment,
}

/// The lines so far, the tokens of the line so far, and the token that is being read.
#[derive(Drop)]
pub(crate) struct Cutter {
    pub lines: AsmFile,
    pub number: u32,
    pub column: u32,
    pub tokens: Tokens,
    pub start: u32,
    pub units: Units,
    pub mode: Mode,
}

/// What a text is cut into: its lines, and the number of the line behind the last of all.
#[derive(Drop)]
pub(crate) struct Cut {
    pub file: AsmFile,
    pub behind: u32,
}

impl Cutter {
    /// Nothing is read.
    pub fn new(alloc: Global) -> Cutter
        ensures { result ≡ at_start }
    {
        Cutter {
            lines: AsmFile::new(alloc),
            number: 1,
            column: 1,
            tokens: Tokens::new(alloc),
            start: 1,
            units: Units::new(alloc),
            mode: Mode::Between,
        }
    }

    // The character belongs to the token that is being read.
    fn push(&mut self, c: char) -> Result<(), AllocError>
        ensures { IfOk result (λ done. self.new ≡ with_character self.old c) }
    {
        let mut room = [0u16; 2];
        self.units.extend_from_slice(c.encode_utf16(&mut room))?;
        Ok(())
    }

    // The token that is being read ends, if there is one.
    fn close(&mut self, alloc: Global) -> Result<(), AllocError>
        ensures { IfOk result (λ done. self.new ≡ token_end self.old) }
    {
        match self.mode {
            Mode::Between | Mode::Comment => {}
            Mode::Run | Mode::Quoted | Mode::Escaped => {
                let units = std::mem::replace(&mut self.units, Units::new(alloc));
                let column = self.start;
                self.tokens.push(Token { column, units })?;
            }
        }
        self.mode = Mode::Between;
        Ok(())
    }

    // A token begins with the character.
    fn open(&mut self, alloc: Global, mode: Mode, c: char) -> Result<(), AllocError>
        ensures { IfOk result (λ done. self.new ≡ token_start mode self.old c) }
    {
        self.close(alloc)?;
        self.start = self.column;
        self.mode = mode;
        self.push(c)
    }

    // A character that is in no string and no comment.
    fn take_unquoted(&mut self, alloc: Global, c: char) -> Result<(), AllocError>
        ensures { IfOk result (λ done. self.new ≡ unquoted_step self.old c) }
    {
        match c {
            ' ' => self.close(alloc),
            '#' => {
                self.close(alloc)?;
                self.mode = Mode::Comment;
                Ok(())
            }
            '"' => self.open(alloc, Mode::Quoted, c),
            '{' | '}' | ',' | '=' => {
                self.open(alloc, Mode::Run, c)?;
                self.close(alloc)
            }
            _ if self.mode == Mode::Run => self.push(c),
            _ => self.open(alloc, Mode::Run, c),
        }
    }

    // A character of a line.
    fn take_inside(&mut self, alloc: Global, c: char) -> Result<(), AllocError>
        ensures { IfOk result (λ done. self.new ≡ line_step self.old c) }
    {
        match self.mode {
            Mode::Between | Mode::Run => self.take_unquoted(alloc, c),
            Mode::Comment => Ok(()),
            Mode::Escaped => {
                self.mode = Mode::Quoted;
                self.push(c)
            }
            Mode::Quoted => {
                self.push(c)?;
                match c {
                    '"' => self.close(alloc),
                    '\\' => {
                        self.mode = Mode::Escaped;
                        Ok(())
                    }
                    _ => Ok(()),
                }
            }
        }
    }

    // The line ends, and is one of the file if it has a token.
    fn end_line(&mut self, alloc: Global) -> Result<(), AllocError>
        ensures { IfOk result (λ done. self.new ≡ ended_line self.old) }
    {
        self.close(alloc)?;
        if !self.tokens.is_empty() {
            let tokens = std::mem::replace(&mut self.tokens, Tokens::new(alloc));
            let number = self.number;
            self.lines.push(AsmLine { number, tokens })?;
        }
        Ok(())
    }

    /// The next character of the text.
    pub fn take(&mut self, alloc: Global, c: char) -> Result<(), AllocError>
        requires number { self.old.number + 1 < 2 ^ 32 }
        requires column { self.old.column + 1 < 2 ^ 32 }
        ensures { IfOk result (λ done. self.new ≡ text_step self.old c) }
    {
        if c == '\n' {
            self.end_line(alloc)?;
            self.number += 1;
            self.column = 1;
        } else {
            self.take_inside(alloc, c)?;
            self.column += 1;
        }
        Ok(())
    }

    // The text ends, and its last line with it.
    fn finish(self, alloc: Global) -> Result<Cut, AllocError>
        requires { self.number + 1 < 2 ^ 32 }
        ensures { IfOk result (λ cut. cut ≡ whole_cut self) }
    {
        let behind = if self.column == 1 {
            self.number
        } else {
            self.number + 1
        };
        let mut cutter = self;
        cutter.end_line(alloc)?;
        Ok(Cut {
            file: cutter.lines,
            behind,
        })
    }
}

/// The lines of a text, and the number of the line behind the last.
pub(crate) fn cut_text(alloc: Global, text: &str) -> Result<Cut, AllocError>
    requires { length text.now < 4294967294 }
    ensures file { IfOk result (λ cut. cut.file ≡ lines_of (chars text.now)) }
    ensures behind { IfOk result (λ cut. cut.behind ≡ line_count (chars text.now) + 1) }
    ensures small { IfOk result (λ cut. AllSmall cut.file) }
{
    let mut cutter = Cutter::new(alloc);
    for c in text.chars() {
        cutter.take(alloc, c)?;
    }
    cutter.finish(alloc)
}
