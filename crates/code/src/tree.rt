// `ins` and `ocmp` as values: xmm numbers, shift amounts and imm8 are bytes. The last three of `Instruction` are request
// 2026-02's.
use machine::Operand;

#[derive(Clone, Copy)]
pub enum Instruction {
    Mov64(Operand, Operand),
    Add64(Operand, Operand),
    AddLea64(Operand, Operand, Operand),
    AddCarry64(Operand, Operand),
    Adcx64(Operand, Operand),
    Adox64(Operand, Operand),
    Sub64(Operand, Operand),
    Mul64(Operand),
    Mulx64(Operand, Operand, Operand),
    IMul64(Operand, Operand),
    Xor64(Operand, Operand),
    And64(Operand, Operand),
    Shr64(Operand, Operand),
    Shl64(Operand, Operand),
    Paddd(u8, u8),
    Pxor(u8, u8),
    Pslld(u8, u8),
    Psrld(u8, u8),
    Pshufd(u8, u8, u8),
    Pcmpeqd(u8, u8),
    Pextrq(Operand, u8, u8),
    Pinsrd(u8, Operand, u8),
    Pinsrq(u8, Operand, u8),
    VPSLLDQ(u8, u8, u8),
    Popcnt64(Operand, Operand),
    Lzcnt64(Operand, Operand),
    Tzcnt64(Operand, Operand),
}

#[derive(Clone, Copy)]
pub enum Ocmp {
    OEq(Operand, Operand),
    ONe(Operand, Operand),
    OLe(Operand, Operand),
    OGe(Operand, Operand),
    OLt(Operand, Operand),
    OGt(Operand, Operand),
}
