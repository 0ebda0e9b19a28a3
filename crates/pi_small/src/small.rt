// The tests that make a program small for a main class. docs/dex-format.md states them; each function is one definition of
// the duties'.

ghost use Rattle.std.specs.Prelude.{◌≡◌};
ghost use Rattle.std.specs.List.{list_all};
ghost use Rattle.pi_model.specs.Flags.{is_static};
ghost use Rattle.pi_model.specs.Program.{same_name};
ghost use Rattle.pi_model.specs.Search.{same_names};
ghost use Rattle.pi_model.specs.Texts.{same_text};
ghost use Rattle.pi_duty.specs.Small.{is_plain, is_plain_text, is_zero, field_fits, is_print, one_below, names_own, insn_fits, line_fits, insn_units, lies, is_return, ends_in_return, code_fits, method_fits, main_fits, clinit_fits, methods_fit, parent_fits, class_fits, one_fits, is_small};

use crate::first_file::{CLINIT, INT, MAIN, OBJECT, OUT, PRINT, STRINGS, VOID};
use pi_model::describe::{ClassDesc, Code, FieldDesc, Init, Line, MethodDesc};
use pi_model::insn::{Access, FieldRef, How, Insn, MethodRef, Regs};
use pi_model::numbers::{ClassNo, NameNo};
use pi_model::prog::Prog;

fn is_same(a: NameNo, b: NameNo) -> bool
    ensures { result ≡ same_name a b }
{
    a.0 == b.0
}

/// Whether two lists have the same names in the same order.
fn are_same(a: &[NameNo], b: &[NameNo]) -> bool
    ensures { result ≡ same_names a.now b.now }
{
    match a {
        [] => b.is_empty(),
        [x, xs @ ..] => match b {
            [] => false,
            [y, ys @ ..] => is_same(*x, *y) && are_same(xs, ys),
        },
    }
}

fn has_static_flag(flags: u32) -> bool
    ensures { result ≡ is_static flags }
{
    flags & 8 == 8
}

fn is_zero_value(init: Init) -> bool
    ensures { result ≡ is_zero init }
{
    match init {
        Init::Zero => true,
        _ => false,
    }
}

/// Whether a field is a static int without a value.
fn fits_field(field: &FieldDesc) -> bool
    ensures { result ≡ field_fits field.now }
{
    is_same(field.ty, INT) && has_static_flag(field.flags) && is_zero_value(field.init)
}

fn fit_fields(fields: &[FieldDesc]) -> bool
    ensures { result ≡ list_all field_fits fields.now }
{
    fields.iter().all(fits_field)
}

/// Whether a method is the native that prints an int.
fn names_print(m: &MethodRef) -> bool
    ensures { result ≡ is_print m.now }
{
    is_same(m.class, OUT)
        && is_same(m.name, PRINT)
        && are_same(m.params.as_slice(), &[INT])
        && is_same(m.ret, VOID)
}

/// Whether there is one register, below a number.
fn is_one_below(words: u16, regs: &Regs) -> bool
    ensures { result ≡ one_below words regs.now }
{
    regs.len() == 1 && regs.at(0) < words
}

/// Whether an instruction's field is one that the class lists.
fn is_own(class: &ClassDesc, f: FieldRef) -> bool
    ensures { result ≡ names_own class.now f }
{
    is_same(f.class, class.name) && class.own_field(&f).is_some()
}

/// Whether an instruction stands in a small file and works on that many registers.
fn fits_insn(class: &ClassDesc, words: u16, insn: &Insn) -> bool
    ensures { result ≡ insn_fits class.now words insn.now }
{
    match insn {
        Insn::Const { a, .. } => *a < words,
        Insn::Sget {
            kind: Access::Plain,
            a,
            f,
        } => *a < words && is_own(class, *f),
        Insn::Sput {
            kind: Access::Plain,
            a,
            f,
        } => *a < words && is_own(class, *f),
        Insn::Invoke {
            how: How::Static,
            m,
            regs,
        } => names_print(m) && is_one_below(words, regs),
        Insn::ReturnVoid => true,
        _ => false,
    }
}

fn fit_lines(class: &ClassDesc, words: u16, lines: &[Line]) -> bool
    ensures { result ≡ list_all (line_fits class.now words) lines.now }
{
    lines.iter().all(|line| fits_insn(class, words, &line.insn))
}

fn returns(insn: &Insn) -> bool
    ensures { result ≡ is_return insn.now }
{
    match insn {
        Insn::ReturnVoid => true,
        _ => false,
    }
}

fn end_in_return(lines: &[Line]) -> bool
    ensures { result ≡ ends_in_return lines.now }
{
    match lines {
        [.., last] => returns(&last.insn),
        [] => false,
    }
}

/// How many units an instruction of a small file has.
fn units(insn: &Insn) -> u32
    ensures { result ≡ insn_units insn.now }
{
    match insn {
        Insn::Sget { .. } | Insn::Sput { .. } => 2,
        Insn::Invoke { .. } => 3,
        _ => 1,
    }
}

/// Whether instructions lie one behind another from address 0 to the end of their code.
fn lie(end: u32, lines: &[Line]) -> bool
    ensures { result ≡ lies 0 end lines.now }
{
    let mut at = 0;
    for line in lines {
        if u64::from(line.at) != at || line.units != units(&line.insn) {
            return false;
        }
        at = u64::from(line.at) + u64::from(line.units);
    }
    at == u64::from(end)
}

/// Whether a code with that many argument words leaves the arguments alone and does what a small file may.
fn fits_code(class: &ClassDesc, ins: u16, code: &Option<Code>) -> bool
    ensures { result ≡ code_fits class.now ins code.now }
{
    let Some(code) = code else {
        return false;
    };
    let lines = code.insns.as_slice();
    code.ins == ins
        && ins <= code.regs
        && fit_lines(class, code.regs - ins, lines)
        && end_in_return(lines)
        && lie(code.units, lines)
        && code.tries.is_empty()
}

/// Whether a method is static, without result, of that name, and with parameters of those types and that many words.
fn fits_method(class: &ClassDesc, name: NameNo, params: &[NameNo], ins: u16, m: &MethodDesc) -> bool
    ensures { result ≡ method_fits class.now name params.now ins m.now }
{
    is_same(m.name, name)
        && are_same(m.params.as_slice(), params)
        && is_same(m.ret, VOID)
        && has_static_flag(m.flags)
        && fits_code(class, ins, &m.code)
}

fn fits_main(class: &ClassDesc, m: &MethodDesc) -> bool
    ensures { result ≡ main_fits class.now m.now }
{
    fits_method(class, MAIN, &[STRINGS], 1, m)
}

fn fits_clinit(class: &ClassDesc, m: &MethodDesc) -> bool
    ensures { result ≡ clinit_fits class.now m.now }
{
    fits_method(class, CLINIT, &[], 0, m)
}

/// Whether the methods are main, and at most an initialiser before or behind it.
fn fit_methods(class: &ClassDesc, methods: &[MethodDesc]) -> bool
    ensures { result ≡ methods_fit class.now methods.now }
{
    match methods {
        [only] => fits_main(class, only),
        [a, b] => (fits_main(class, a) && fits_clinit(class, b))
            || (fits_clinit(class, a) && fits_main(class, b)),
        _ => false,
    }
}

fn fits_parent(parent: Option<NameNo>) -> bool
    ensures { result ≡ parent_fits parent }
{
    match parent {
        Some(name) => is_same(name, OBJECT),
        None => false,
    }
}

/// Whether a class is no class of the first file, stands below Object alone, and has static ints and the two methods.
fn fits_class(class: &ClassDesc) -> bool
    ensures { result ≡ class_fits class.now }
{
    !is_same(class.name, OBJECT)
        && !is_same(class.name, OUT)
        && fits_parent(class.parent)
        && class.faces.is_empty()
        && fit_fields(class.fields.as_slice())
        && fit_methods(class, class.methods.as_slice())
}

/// Whether the units of a text are those bytes.
fn has_bytes(units: &[u16], bytes: &[u8]) -> bool
    ensures { result ≡ same_text units.now bytes.now }
{
    if units.len() != bytes.len() {
        return false;
    }
    for (i, unit) in units.iter().enumerate() {
        if *unit != u16::from(bytes[i]) {
            return false;
        }
    }
    true
}

/// Whether a character is one from 0x01 to 0x7f.
fn is_ascii(unit: u16) -> bool
    ensures { result ≡ is_plain unit }
{
    0 < unit && unit < 128
}

fn are_ascii(units: &[u16]) -> bool
    ensures { result ≡ list_all is_plain units.now }
{
    units.iter().all(|unit| is_ascii(*unit))
}

/// Whether a text has fewer than 128 characters, each of them such a one.
fn is_short_ascii(units: &[u16]) -> bool
    ensures { result ≡ is_plain_text units.now }
{
    units.len() < 128 && are_ascii(units)
}

/// Whether all names are such texts.
fn has_plain_names(prog: &Prog) -> bool
    ensures { result ≡ list_all is_plain_text prog.now.names }
{
    for n in 0..prog.names() {
        if !is_short_ascii(prog.name(NameNo(n)).as_slice()) {
            return false;
        }
    }
    true
}

/// Whether there is one class behind those of the first file, which is named so and fits.
fn has_one_class(prog: &Prog, main: &[u8]) -> bool
    ensures { result ≡ one_fits prog.now.names main.now prog.now.classes }
{
    if prog.classes() != 3 {
        return false;
    }
    let class = prog.class(ClassNo(2));
    has_bytes(prog.name(class.name).as_slice(), main) && fits_class(class)
}

/// Whether a program of the first file and one more is small for the main class of that descriptor.
///
/// Each field that an instruction names is looked for among the fields of the class, so the time grows with the product
/// of the two numbers.
#[tactic(auto, unfolding(pi_duty::specs::Small::is_small))]
pub fn is_small_program(prog: &Prog, main: &[u8]) -> bool
    ensures { result ≡ is_small main.now prog.now }
{
    has_one_class(prog, main) && has_plain_names(prog)
}
