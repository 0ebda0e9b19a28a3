// Assembler text. Beside the rows on texts:
//
//   case                  no text
//   parse                 tells each token of the text, or where it is wrong
//   front LENGTH          tells the same of its first bytes
//   count                 tells the number of its lines that have a token, and the digest of its tokens
//   memory                tells the fault of too little memory
//
// A token is told by its line, its column and its units.
use crate::texts::follow_text;
use pi_asmtext::{AsmError, AsmFile, AsmLine, parse};
use pi_rows::fault::Fault;
use pi_rows::follow::Subject;
use pi_rows::told::Told;
use sha1::Sha1;
use std::alloc::Global;

/// The text that rows have described.
#[derive(Drop)]
pub struct AsmText {
    text: Vec<u8>,
}

impl AsmText {
    pub fn new(alloc: Global) -> AsmText {
        AsmText {
            text: Vec::new(alloc),
        }
    }
}

impl Subject for AsmText {
    fn follow(
        &mut self,
        rt: &HostRuntime,
        verb: &str,
        rest: &str,
        told: &mut Told,
    ) -> Result<(), Fault> {
        let alloc = rt.alloc();
        match verb {
            "case" => {
                self.text = Vec::new(alloc);
                Ok(())
            }
            "parse" => add_tokens(told, alloc, self.text.as_slice()),
            "count" => add_count(told, alloc, self.text.as_slice()),
            "front" => {
                let length = rest.parse::<usize>()?;
                match self.text.as_slice().split_at_checked(length) {
                    Some((front, _)) => add_tokens(told, alloc, front),
                    None => Err(Fault::NoRow),
                }
            }
            "memory" => told.value(&AsmError::OutOfMemory),
            _ => follow_text(alloc, &mut self.text, verb, rest),
        }
    }
}

/// Adds the tokens of a text, or where it is wrong.
fn add_tokens(told: &mut Told, alloc: Global, text: &[u8]) -> Result<(), Fault> {
    match lines_of(alloc, text)? {
        Ok(file) => {
            let tokens = tokens_of(alloc, file.as_slice())?;
            told.words(tokens.as_str().trim_start())
        }
        Err(fault) => told.value(&fault),
    }
}

/// Adds the number of lines, and the digest of their tokens, each behind a space.
fn add_count(told: &mut Told, alloc: Global, text: &[u8]) -> Result<(), Fault> {
    match lines_of(alloc, text)? {
        Ok(file) => {
            let tokens = tokens_of(alloc, file.as_slice())?;
            told.value(&file.len())?;
            told.words(" lines, ")?;
            told.digits(&Sha1::digest(tokens.as_str().as_bytes()))
        }
        Err(fault) => told.value(&fault),
    }
}

/// The lines of a text, whose bytes are UTF-8. One of 4 GiB is not read, since its columns may be no numbers of 32 bits.
fn lines_of(alloc: Global, text: &[u8]) -> Result<Result<AsmFile, AsmError>, Fault> {
    match std::str::from_utf8(text) {
        Ok(text) if text.len() < 4_294_967_294 => Ok(parse(alloc, text)),
        _ => Err(Fault::NoRow),
    }
}

fn tokens_of(alloc: Global, lines: &[AsmLine]) -> Result<Told, Fault> {
    let mut tokens = Told::new(alloc);
    for line in lines {
        add_line(&mut tokens, line)?;
    }
    Ok(tokens)
}

fn add_line(tokens: &mut Told, line: &AsmLine) -> Result<(), Fault> {
    for token in line.tokens.as_slice() {
        tokens.words(" ")?;
        tokens.value(&line.number)?;
        tokens.words(":")?;
        tokens.value(&token.column)?;
        tokens.words(" ")?;
        tokens.units(token.units.as_slice())?;
    }
    Ok(())
}
