ghost use Rattle.std.specs.Prelude.{◌≡◌, ◌==◌};
ghost use Rattle.machine.specs.Registers.{Rsp};

// A register by its number in the source's order, which is not the processor's. A number and no enum: code may name any of 256, and those above
// 15 are refused at their place (docs/DECISIONS.md, "Registers").
#[derive(Clone, Copy, PartialEq, Eq)]
pub struct Reg {
    pub number: u8,
}

impl Reg {
    pub const RAX: Reg = Reg { number: 0 };

    pub const RBX: Reg = Reg { number: 1 };

    pub const RCX: Reg = Reg { number: 2 };

    pub const RDX: Reg = Reg { number: 3 };

    pub const RSI: Reg = Reg { number: 4 };

    pub const RDI: Reg = Reg { number: 5 };

    pub const RBP: Reg = Reg { number: 6 };

    pub const RSP: Reg = Reg { number: 7 };

    pub const R8: Reg = Reg { number: 8 };

    pub const R9: Reg = Reg { number: 9 };

    pub const R10: Reg = Reg { number: 10 };

    pub const R11: Reg = Reg { number: 11 };

    pub const R12: Reg = Reg { number: 12 };

    pub const R13: Reg = Reg { number: 13 };

    pub const R14: Reg = Reg { number: 14 };

    pub const R15: Reg = Reg { number: 15 };

    // Whether this is the stack pointer, the one register that is no destination.
    pub fn is_rsp(self) -> bool
        ensures { result ≡ (self.number == Rsp.number) }
    {
        self == Reg::RSP
    }
}
