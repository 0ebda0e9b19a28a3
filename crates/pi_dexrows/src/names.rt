// What the texts of names tell of members.

ghost use Rattle.std.specs.Prelude.{◌≡◌, ◌<◌, codes, length};
ghost use Rattle.pi_model.specs.Flags.{is_private, is_static};
ghost use Rattle.pi_model.specs.Texts.{same_text};
ghost use Rattle.pi_contents.specs.Asked.{is_direct};
ghost use Rattle.pi_contents.specs.Named.{method_content, text_in};

use pi_model::describe::MethodDesc;
use pi_model::numbers::NameNo;
use pi_model::prog::Prog;
use pi_model::texts::same_text;

/// The text of a name.
pub(crate) fn text(prog: &Prog, name: NameNo) -> &[u16]
    requires { name.0 < length prog.now.names }
    ensures { result.now ≡ text_in prog.now name }
{
    prog.name(name).as_slice()
}

/// Whether a member belongs to the class and to no object.
pub(crate) fn is_static(flags: u32) -> bool
    ensures { result ≡ is_static flags }
{
    flags & 0x8 == 0x8
}

/// Whether the class alone may use a member.
fn is_private(flags: u32) -> bool
    ensures { result ≡ is_private flags }
{
    flags & 0x2 == 0x2
}

/// Whether a text is `<init>`.
fn names_constructor(text: &[u16]) -> bool
    ensures { result ≡ same_text (codes "<init>") text.now }
{
    same_text(&[0x3c, 0x69, 0x6e, 0x69, 0x74, 0x3e], text)
}

/// Whether a method is static, private or a constructor.
pub(crate) fn is_direct(prog: &Prog, method: &MethodDesc) -> bool
    requires { method.now.name.0 < length prog.now.names }
    ensures { result ≡ is_direct (method_content (text_in prog.now) method.now) }
{
    is_static(method.flags)
        || is_private(method.flags)
        || names_constructor(text(prog, method.name))
}
