// The lines of a text, and their tokens.

use pi_model::listed::{Listed, Units};

/// A token: the column of its first character, counted in characters from 1, and its units as written.
#[derive(Debug, Drop)]
pub struct Token {
    pub column: u32,
    pub units: Units,
}

/// Tokens in order.
pub type Tokens = Listed<Token>;

/// A line that has a token: its number, counted from 1, and its tokens.
#[derive(Debug, Drop)]
pub struct AsmLine {
    pub number: u32,
    pub tokens: Tokens,
}

/// The lines of a text that have a token, in order.
pub type AsmFile = Listed<AsmLine>;
