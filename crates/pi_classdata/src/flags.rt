// Access flags, as the published format gives their bits.

ghost use Rattle.std.specs.Prelude.{⊤, ◌≡◌, [], ◌∷◌, codes};
ghost use Rattle.pi_model.specs.Flags.{is_public, is_private, is_static, is_native, is_interface, is_abstract, is_flagged_constructor};

use bitflags::{Flag, Flags, bitflag_items};

/// The access flags of a class or a member. Bits that have no name here are kept, and tests do not look at them.
#[derive(Clone, Copy, PartialEq, Eq, Debug)]
pub struct AccessFlags(pub u32);

bitflag_items! {
    impl AccessFlags: u32 {
        const PUBLIC = 0x1;
        const PRIVATE = 0x2;
        const STATIC = 0x8;
        const NATIVE = 0x100;
        const INTERFACE = 0x200;
        const ABSTRACT = 0x400;
        const CONSTRUCTOR = 0x10000;
    }
}

impl Flags for AccessFlags {
    type Bits = u32;

    ghost exact = { ⊤ };

    ghost table = { (codes "PUBLIC", 1) ∷ (codes "PRIVATE", 2) ∷ (codes "STATIC", 8) ∷ (codes "NATIVE", 256) ∷ (codes "INTERFACE", 512) ∷ (codes "ABSTRACT", 1024) ∷ (codes "CONSTRUCTOR", 65536) ∷ [] };

    ghost set_of = { λ f. f.0 };

    fn flags<'a>() -> &'a [Flag<AccessFlags>] {
        AccessFlags::FLAGS
    }

    fn bits(&self) -> u32 {
        self.0
    }

    fn from_bits_retain(bits: u32) -> AccessFlags {
        AccessFlags(bits)
    }
}

impl AccessFlags {
    /// Whether everyone may use it.
    pub fn is_public(self) -> bool
        ensures { result ≡ is_public self.0 }
    {
        self.contains(AccessFlags::PUBLIC)
    }

    /// Whether its class alone may use it.
    pub fn is_private(self) -> bool
        ensures { result ≡ is_private self.0 }
    {
        self.contains(AccessFlags::PRIVATE)
    }

    /// Whether it belongs to the class and to no object.
    pub fn is_static(self) -> bool
        ensures { result ≡ is_static self.0 }
    {
        self.contains(AccessFlags::STATIC)
    }

    /// Whether its code is outside of the file.
    pub fn is_native(self) -> bool
        ensures { result ≡ is_native self.0 }
    {
        self.contains(AccessFlags::NATIVE)
    }

    /// Whether it is an interface.
    pub fn is_interface(self) -> bool
        ensures { result ≡ is_interface self.0 }
    {
        self.contains(AccessFlags::INTERFACE)
    }

    /// Whether it is left to others to define.
    pub fn is_abstract(self) -> bool
        ensures { result ≡ is_abstract self.0 }
    {
        self.contains(AccessFlags::ABSTRACT)
    }

    /// Whether it is flagged as a constructor.
    pub fn is_constructor(self) -> bool
        ensures { result ≡ is_flagged_constructor self.0 }
    {
        self.contains(AccessFlags::CONSTRUCTOR)
    }
}
