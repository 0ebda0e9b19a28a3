// The first file of the chain as long as the core library is not there: Object, and Out with its native print.
// docs/dex-format.md states it.

ghost use Rattle.std.specs.Prelude.{◌≡◌, IfOk};
ghost use Rattle.pi_format.specs.Core.{core_names, core_types, core_program, object_class, out_class, print_method};
ghost use Rattle.pi_format.specs.Says.{HasRoom};

use pi_format::core_fits;
use pi_model::describe::{ClassDesc, Classes, Fields, MethodDesc, Methods};
use pi_model::listed::{Names, Texts};
use pi_model::numbers::{FileNo, NameNo};
use pi_model::prog::Prog;
use pi_model::texts::text_of;
use std::alloc::{AllocError, Global};

// The names of that file, each with its number.
pub const OBJECT: NameNo = NameNo(0);

pub const OUT: NameNo = NameNo(1);

pub const STRINGS: NameNo = NameNo(2);

pub const VOID: NameNo = NameNo(3);

pub const INT: NameNo = NameNo(4);

pub const PRINT: NameNo = NameNo(5);

pub const MAIN: NameNo = NameNo(6);

pub const CLINIT: NameNo = NameNo(7);

/// The names in the order of their numbers.
#[tactic(auto, unfolding(pi_format::specs::Core::core_names))]
fn names(alloc: Global) -> Result<Texts, AllocError>
    ensures { IfOk result (λ names. names ≡ core_names) }
{
    let mut names = Texts::new(alloc);
    names.push(text_of(alloc, b"Ljava/lang/Object;")?)?;
    names.push(text_of(alloc, b"Lpi/Out;")?)?;
    names.push(text_of(alloc, b"[Ljava/lang/String;")?)?;
    names.push(text_of(alloc, b"V")?)?;
    names.push(text_of(alloc, b"I")?)?;
    names.push(text_of(alloc, b"print")?)?;
    names.push(text_of(alloc, b"main")?)?;
    names.push(text_of(alloc, b"<clinit>")?)?;
    Ok(names)
}

/// The names that are descriptors of types.
fn types(alloc: Global) -> Result<Names, AllocError>
    ensures { IfOk result (λ types. types ≡ core_types) }
{
    Names::from_slice(alloc, &[OBJECT, OUT, STRINGS, VOID, INT])
}

/// The class that all others stand below.
fn object(alloc: Global) -> ClassDesc
    ensures { result ≡ object_class }
{
    ClassDesc {
        file: FileNo(0),
        name: OBJECT,
        flags: 1,
        parent: None,
        faces: Names::new(alloc),
        fields: Fields::new(alloc),
        methods: Methods::new(alloc),
    }
}

/// The native that prints an int: public, static and native.
fn print(alloc: Global) -> Result<MethodDesc, AllocError>
    ensures { IfOk result (λ method. method ≡ print_method) }
{
    let mut params = Names::new(alloc);
    params.push(INT)?;
    Ok(MethodDesc {
        name: PRINT,
        params,
        ret: VOID,
        flags: 0x109,
        code: None,
    })
}

/// The class that prints.
fn out(alloc: Global) -> Result<ClassDesc, AllocError>
    ensures { IfOk result (λ class. class ≡ out_class) }
{
    let mut methods = Methods::new(alloc);
    methods.push(print(alloc)?)?;
    Ok(ClassDesc {
        file: FileNo(0),
        name: OUT,
        flags: 1,
        parent: Some(OBJECT),
        faces: Names::new(alloc),
        fields: Fields::new(alloc),
        methods,
    })
}

/// The chain of that file alone.
#[tactic(auto, unfolding(pi_format::specs::Core::core_names))]
pub fn core(alloc: Global) -> Result<Prog, AllocError>
    ensures program { IfOk result (λ p. p ≡ core_program) }
    ensures room { IfOk result HasRoom }
{
    core_fits();
    let mut classes = Classes::new(alloc);
    classes.push(object(alloc))?;
    classes.push(out(alloc)?)?;
    let mut prog = Prog::new(alloc);
    prog.add_file(names(alloc)?, types(alloc)?, classes)?;
    Ok(prog)
}
