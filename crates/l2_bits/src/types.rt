ghost use Rattle.std.specs.Prelude.{◌≡◌};
ghost use Rattle.l2_bits.specs.Widths.{IsType};

/// An integer type of C by its width in bits, that of the sign included, and whether it has a sign.
/// `_Bool` has 1 bit; the others have 8, 16, 32 or 64.
#[derive(Copy, Clone, PartialEq, Eq, Debug)]
pub struct Ty {
    pub width: u8,
    pub signed: bool,
    pub ghost lawful: { IsType width signed },
}

impl Ty {
    pub const BOOL: Ty = Ty {
        width: 1,
        signed: false,
    };

    /// `char` and `signed char`.
    pub const CHAR: Ty = Ty {
        width: 8,
        signed: true,
    };

    pub const UCHAR: Ty = Ty {
        width: 8,
        signed: false,
    };

    pub const SHORT: Ty = Ty {
        width: 16,
        signed: true,
    };

    pub const USHORT: Ty = Ty {
        width: 16,
        signed: false,
    };

    pub const INT: Ty = Ty {
        width: 32,
        signed: true,
    };

    pub const UINT: Ty = Ty {
        width: 32,
        signed: false,
    };

    /// `long` and `long long`.
    pub const LONG: Ty = Ty {
        width: 64,
        signed: true,
    };

    /// `unsigned long` and `unsigned long long`.
    pub const ULONG: Ty = Ty {
        width: 64,
        signed: false,
    };

    pub fn new(width: u8, signed: bool) -> Ty
        requires { IsType width signed }
        ensures width { result.width ≡ width }
        ensures signed { result.signed ≡ signed }
    {
        Ty { width, signed }
    }
}
