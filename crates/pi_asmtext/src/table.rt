// The names of the instructions, each with its operands. docs/assembler.md has the table in words.

use crate::forms::{Form, Item, Kind, Word};

const R: Kind = Kind::Word(Word::Register);

const N: Kind = Kind::Word(Word::Number);

const S: Kind = Kind::Word(Word::Text);

const T: Kind = Kind::Word(Word::Desc);

const L: Kind = Kind::Word(Word::Label);

const F: Kind = Kind::Word(Word::Field);

const M: Kind = Kind::Word(Word::Method);

const RANGE: Kind = Kind::Range;

const REGISTERS: Kind = Kind::List(Item::One(Word::Register));

const NUMBERS: Kind = Kind::List(Item::One(Word::Number));

const LABELS: Kind = Kind::List(Item::One(Word::Label));

const PAIRS: Kind = Kind::List(Item::Pair);

macro_rules! form {
    () => { Form::Nothing };
    ($a:ident) => { Form::One($a) };
    ($a:ident, $b:ident) => { Form::Two($a, $b) };
    ($a:ident, $b:ident, $c:ident) => { Form::Three($a, $b, $c) };
}

// Rows of names that stand behind their operands.
macro_rules! rows {
    ($($kinds:tt: $($name:literal)+;)+) => {
        [$($(($name, form! $kinds)),+),+]
    };
}

/// The instructions in the order of their opcodes, each with its operands.
pub(crate) const INSTRUCTIONS: [(&str, Form); 182] = rows! {
    (): "nop";
    (R, R): "move" "move/from16" "move/16" "move-wide" "move-wide/from16" "move-wide/16"
        "move-object" "move-object/from16" "move-object/16";
    (R): "move-result" "move-result-wide" "move-result-object" "move-exception";
    (): "return-void";
    (R): "return" "return-wide" "return-object";
    (R, N): "const/4" "const/16" "const" "const/high16" "const-wide/16" "const-wide/32"
        "const-wide" "const-wide/high16";
    (R, S): "const-string" "const-string/jumbo";
    (R, T): "const-class";
    (R): "monitor-enter" "monitor-exit";
    (R, T): "check-cast";
    (R, R, T): "instance-of";
    (R, R): "array-length";
    (R, T): "new-instance";
    (R, R, T): "new-array";
    (REGISTERS, T): "filled-new-array";
    (RANGE, T): "filled-new-array/range";
    (R, N, NUMBERS): "fill-array-data";
    (R): "throw";
    (L): "goto" "goto/16" "goto/32";
    (R, N, LABELS): "packed-switch";
    (R, PAIRS): "sparse-switch";
    (R, R, R): "cmp-long";
    (R, R, L): "if-eq" "if-ne" "if-lt" "if-ge" "if-gt" "if-le";
    (R, L): "if-eqz" "if-nez" "if-ltz" "if-gez" "if-gtz" "if-lez";
    (R, R, R): "aget" "aget-wide" "aget-object" "aget-boolean" "aget-byte" "aget-char" "aget-short"
        "aput" "aput-wide" "aput-object" "aput-boolean" "aput-byte" "aput-char" "aput-short";
    (R, R, F): "iget" "iget-wide" "iget-object" "iget-boolean" "iget-byte" "iget-char" "iget-short"
        "iput" "iput-wide" "iput-object" "iput-boolean" "iput-byte" "iput-char" "iput-short";
    (R, F): "sget" "sget-wide" "sget-object" "sget-boolean" "sget-byte" "sget-char" "sget-short"
        "sput" "sput-wide" "sput-object" "sput-boolean" "sput-byte" "sput-char" "sput-short";
    (REGISTERS, M): "invoke-virtual" "invoke-super" "invoke-direct" "invoke-static"
        "invoke-interface";
    (RANGE, M): "invoke-virtual/range" "invoke-super/range" "invoke-direct/range"
        "invoke-static/range" "invoke-interface/range";
    (R, R): "neg-int" "not-int" "neg-long" "not-long" "int-to-long" "long-to-int" "int-to-byte"
        "int-to-char" "int-to-short";
    (R, R, R): "add-int" "sub-int" "mul-int" "div-int" "rem-int" "and-int" "or-int" "xor-int"
        "shl-int" "shr-int" "ushr-int" "add-long" "sub-long" "mul-long" "div-long" "rem-long"
        "and-long" "or-long" "xor-long" "shl-long" "shr-long" "ushr-long";
    (R, R): "add-int/2addr" "sub-int/2addr" "mul-int/2addr" "div-int/2addr" "rem-int/2addr"
        "and-int/2addr" "or-int/2addr" "xor-int/2addr" "shl-int/2addr" "shr-int/2addr"
        "ushr-int/2addr" "add-long/2addr" "sub-long/2addr" "mul-long/2addr" "div-long/2addr"
        "rem-long/2addr" "and-long/2addr" "or-long/2addr" "xor-long/2addr" "shl-long/2addr"
        "shr-long/2addr" "ushr-long/2addr";
    (R, R, N): "add-int/lit16" "rsub-int" "mul-int/lit16" "div-int/lit16" "rem-int/lit16"
        "and-int/lit16" "or-int/lit16" "xor-int/lit16" "add-int/lit8" "rsub-int/lit8"
        "mul-int/lit8" "div-int/lit8" "rem-int/lit8" "and-int/lit8" "or-int/lit8" "xor-int/lit8"
        "shl-int/lit8" "shr-int/lit8" "ushr-int/lit8";
};
