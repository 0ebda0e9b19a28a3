// What a row tells: a line, or several, written piece by piece. A `format!` of its own for each line is dear to prove.
use crate::fault::Fault;
use sha1::Sha1;
use std::alloc::Global;
use std::fmt::{Debug, Display};

/// The most bytes of an answer that is told whole where answers are short.
const WHOLE: usize = 600;

/// The lines that a row tells.
#[derive(Drop)]
pub struct Told {
    alloc: Global,
    text: String,
    /// Whether there is a line, be it an empty one.
    is_begun: bool,
}

impl Told {
    /// No line.
    pub fn new(alloc: Global) -> Told {
        Told {
            alloc,
            text: String::new(alloc),
            is_begun: false,
        }
    }

    pub fn is_begun(&self) -> bool {
        self.is_begun
    }

    pub fn as_str(&self) -> &str {
        self.text.as_str()
    }

    /// Begins a line behind those that are there.
    pub fn line(&mut self) -> Result<(), Fault> {
        if self.is_begun {
            self.text.push('\n')?;
        }
        self.is_begun = true;
        Ok(())
    }

    /// Adds words to the last line.
    pub fn words(&mut self, words: &str) -> Result<(), Fault> {
        self.is_begun = true;
        self.text.push_str(words)?;
        Ok(())
    }

    /// Adds a value as it prints.
    pub fn value<T: Display>(&mut self, value: &T) -> Result<(), Fault> {
        let text = format!(in self.alloc; "{value}")?;
        self.words(text.as_str())
    }

    /// Adds a value as it prints for a programmer.
    pub fn debug<T: Debug>(&mut self, value: &T) -> Result<(), Fault> {
        let text = format!(in self.alloc; "{value:?}")?;
        self.words(text.as_str())
    }

    /// Adds a fault by its name and as it prints.
    pub fn fault<T: Debug + Display>(&mut self, fault: &T) -> Result<(), Fault> {
        self.debug(fault)?;
        self.words(": ")?;
        self.value(fault)
    }

    /// Adds a line of words and a value.
    pub fn line_of<T: Debug>(&mut self, words: &str, value: &T) -> Result<(), Fault> {
        self.line()?;
        self.words(words)?;
        self.words(" ")?;
        self.debug(value)
    }

    /// Adds bytes as pairs of digits.
    pub fn digits(&mut self, bytes: &[u8]) -> Result<(), Fault> {
        self.is_begun = true;
        for byte in bytes {
            self.pair(*byte)?;
        }
        Ok(())
    }

    fn pair(&mut self, byte: u8) -> Result<(), Fault> {
        self.text.push(digit(byte >> 4))?;
        self.text.push(digit(byte & 15))?;
        Ok(())
    }

    /// Adds bytes as text, with those that are no letter of ASCII, and the backslash, as two digits.
    pub fn bytes(&mut self, bytes: &[u8]) -> Result<(), Fault> {
        for byte in bytes {
            match *byte {
                b'\n' => self.text.push_str("\\n")?,
                b' '..=b'[' | b']'..=b'~' => self.text.push(char::from(*byte))?,
                _ => {
                    self.text.push_str("\\x")?;
                    self.pair(*byte)?;
                }
            }
        }
        Ok(())
    }

    /// Adds units as text, with those that are no letter of ASCII, and the backslash, as four digits.
    pub fn units(&mut self, units: &[u16]) -> Result<(), Fault> {
        self.is_begun = true;
        for unit in units {
            match u8::try_from(*unit) {
                Ok(byte @ (b' '..=b'[' | b']'..=b'~')) => self.text.push(char::from(byte))?,
                _ => {
                    self.text.push_str("\\u")?;
                    self.digits(&unit.to_be_bytes())?;
                }
            }
        }
        Ok(())
    }

    /// Adds the length and the digest of bytes.
    pub fn digest(&mut self, bytes: &[u8]) -> Result<(), Fault> {
        self.value(&bytes.len())?;
        self.words(" bytes ")?;
        self.digits(&Sha1::digest(bytes))
    }

    /// Adds words, or the length and the digest of long ones.
    pub fn short(&mut self, words: &str) -> Result<(), Fault> {
        if words.len() <= WHOLE {
            self.words(words)
        } else {
            self.digest(words.as_bytes())
        }
    }

    /// Adds how many there are of each kind of thing.
    pub fn counts(&mut self, counts: &[(&str, u32)]) -> Result<(), Fault> {
        let mut between = "";
        for pair in counts {
            let (kind, count) = *pair;
            self.words(between)?;
            self.value(&count)?;
            self.words(" ")?;
            self.words(kind)?;
            between = ", ";
        }
        Ok(())
    }
}

/// A number below 16 as a digit.
fn digit(number: u8) -> char {
    match number {
        0..=9 => char::from(b'0'.wrapping_add(number)),
        _ => char::from(b'a'.wrapping_add(number.wrapping_sub(10))),
    }
}
