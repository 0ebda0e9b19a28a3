// Reads a text: cuts it into lines of tokens, and walks over them as the grammar wants.

ghost use Rattle.std.specs.Prelude.{◌≡◌, ◌+◌, ◌<◌, not, length, count_by, IfOk, IfErr, ◌^◌};
ghost use Rattle.std.specs.Str.{chars};
ghost use Rattle.pi_asmtext.specs.Grammar.{text as text_pattern, IsText};
ghost use Rattle.pi_asmtext.specs.Tokens.{lines_of};
ghost use Rattle.pi_asmtext.specs.declared.fault.AsmError.TheVariants.{OutOfMemory};
ghost use Rattle.pi_asmtext.specs.Places.{is_second, width, line_symbols, file_symbols, symbols, Wrong};
ghost use Rattle.pi_asmtext.specs.Rest.{rest_of};
ghost use Rattle.pi_asmtext.specs.Walking.{Small, AllSmall, walk, line_answer, lines_answer};

use crate::fault::{AsmError, AsmKind};
use crate::file::{AsmFile, AsmLine, Token};
use crate::state::{Place, State};
use crate::tokens::cut_text;
use std::alloc::Global;

fn is_second(unit: u16) -> bool
    ensures { result ≡ is_second unit }
{
    0xdc00 <= unit && unit < 0xe000
}

/// The number of characters of units.
fn width(units: &[u16]) -> usize
    ensures { result ≡ count_by (λ u. not (is_second u)) units.now }
{
    units.iter().filter(|unit| !is_second(**unit)).count()
}

fn column_behind(token: &Token) -> u32
    requires { token.now.column + width token.now.units < 2 ^ 32 }
    ensures { result ≡ token.now.column + width token.now.units }
{
    token.column + width(token.units.as_slice()) as u32
}

/// What is wanted behind a line, or the column at which it is wrong.
fn walk_line(start: State, number: u32, tokens: &[Token]) -> Result<State, u32>
    requires { Small tokens.now }
    ensures { walk (rest_of start) (line_symbols number 1 tokens.now) ≡ line_answer number result }
{
    let mut state = start;
    let mut column = 1u32;
    for token in tokens {
        match state.next(token.units.as_slice()) {
            Some(next) => state = next,
            None => return Err(token.column),
        }
        column = column_behind(token);
    }
    match state.end() {
        Some(next) => Ok(next),
        None => Err(column),
    }
}

/// What is wanted behind all lines, or where they are wrong.
fn walk_lines(lines: &[AsmLine]) -> Result<State, (u32, u32)>
    requires { AllSmall lines.now }
    ensures { walk text_pattern (file_symbols lines.now) ≡ lines_answer result }
{
    let mut state = State::At(Place::Classes);
    for line in lines {
        match walk_line(state, line.number, line.tokens.as_slice()) {
            Ok(next) => state = next,
            Err(column) => return Err((line.number, column)),
        }
    }
    Ok(state)
}

fn wrong(line: u32, column: u32) -> AsmError
    ensures { result ≡ AsmError.At line column AsmKind.Syntax }
{
    AsmError::At {
        line,
        column,
        kind: AsmKind::Syntax,
    }
}

/// The lines of a text that have a token, where the text keeps the grammar.
///
/// At names the first token with which those up to it begin no text of the grammar, where a line is too short the place
/// behind its last token, and where the text is too short the begin of the line behind its last.
pub fn parse(alloc: Global, text: &str) -> Result<AsmFile, AsmError>
    requires { length text.now < 4294967294 }
    ensures lines { IfOk result (λ file. file ≡ lines_of (chars text.now)) }
    ensures grammar { IfOk result (λ file. IsText (symbols (file_symbols file))) }
    ensures complete { IfErr result (λ fault. IsText (symbols (file_symbols (lines_of (chars text.now)))) → fault ≡ OutOfMemory) }
    ensures wrong { IfErr result (λ fault. Wrong (chars text.now) fault) }
{
    let cut = cut_text(alloc, text)?;
    match walk_lines(cut.file.as_slice()) {
        Err((line, column)) => Err(wrong(line, column)),
        Ok(state) => {
            if state.may_end() {
                Ok(cut.file)
            } else {
                Err(wrong(cut.behind, 1))
            }
        }
    }
}
