// Instructions, grouped by format: kinds as enums, registers and immediates as types of their own.
use super::operands::{
    BranchOffset, CsrNumber, Imm12, JumpOffset, Reg, ShiftAmount, Uimm5, UpperImm,
};
use zaamo::AmoOp;

/// What a branch compares for.
#[derive(Clone, Copy, Debug, PartialEq, Eq)]
pub enum Comparison {
    /// BEQ.
    Equal,
    /// BNE.
    NotEqual,
    /// BLT.
    Less,
    /// BGE.
    GreaterEqual,
    /// BLTU.
    LessUnsigned,
    /// BGEU.
    GreaterEqualUnsigned,
}

/// What a load reads.
#[derive(Clone, Copy, Debug, PartialEq, Eq)]
pub enum LoadKind {
    /// LB.
    Byte,
    /// LH.
    Half,
    /// LW.
    Word,
    /// LBU.
    ByteUnsigned,
    /// LHU.
    HalfUnsigned,
}

/// What a store writes.
#[derive(Clone, Copy, Debug, PartialEq, Eq)]
pub enum StoreKind {
    /// SB.
    Byte,
    /// SH.
    Half,
    /// SW.
    Word,
}

/// An operation with an immediate.
#[derive(Clone, Copy, Debug, PartialEq, Eq)]
pub enum ImmOp {
    /// ADDI.
    Add,
    /// SLTI.
    SetLess,
    /// SLTIU.
    SetLessUnsigned,
    /// XORI.
    Xor,
    /// ORI.
    Or,
    /// ANDI.
    And,
}

/// A shift by an immediate.
#[derive(Clone, Copy, Debug, PartialEq, Eq)]
pub enum ShiftOp {
    /// SLLI.
    Left,
    /// SRLI.
    Right,
    /// SRAI.
    RightSigned,
}

/// An operation on two registers.
#[derive(Clone, Copy, Debug, PartialEq, Eq)]
pub enum RegOp {
    /// ADD.
    Add,
    /// SUB.
    Sub,
    /// SLL.
    ShiftLeft,
    /// SLT.
    SetLess,
    /// SLTU.
    SetLessUnsigned,
    /// XOR.
    Xor,
    /// SRL.
    ShiftRight,
    /// SRA.
    ShiftRightSigned,
    /// OR.
    Or,
    /// AND.
    And,
    /// MUL.
    Mul,
    /// MULH.
    MulHigh,
    /// MULHSU.
    MulHighSignedUnsigned,
    /// MULHU.
    MulHighUnsigned,
    /// DIV.
    Div,
    /// DIVU.
    DivUnsigned,
    /// REM.
    Rem,
    /// REMU.
    RemUnsigned,
}

/// How a CSR instruction makes the new value.
#[derive(Clone, Copy, Debug, PartialEq, Eq)]
pub enum CsrOp {
    /// CSRRW and CSRRWI.
    Write,
    /// CSRRS and CSRRSI.
    Set,
    /// CSRRC and CSRRCI.
    Clear,
}

/// An instruction of RV32IM with Zaamo and Zicsr, or MRET or WFI.
#[derive(Clone, Copy, Debug, PartialEq, Eq)]
pub enum Instr {
    /// LUI.
    Lui {
        rd: Reg,
        imm: UpperImm,
    },
    /// AUIPC.
    Auipc {
        rd: Reg,
        imm: UpperImm,
    },
    /// JAL.
    Jal {
        rd: Reg,
        offset: JumpOffset,
    },
    /// JALR.
    Jalr {
        rd: Reg,
        rs1: Reg,
        imm: Imm12,
    },
    /// The six branches.
    Branch {
        comparison: Comparison,
        rs1: Reg,
        rs2: Reg,
        offset: BranchOffset,
    },
    /// The five loads.
    Load {
        kind: LoadKind,
        rd: Reg,
        rs1: Reg,
        imm: Imm12,
    },
    /// The three stores.
    Store {
        kind: StoreKind,
        rs1: Reg,
        rs2: Reg,
        imm: Imm12,
    },
    /// An operation with an immediate.
    OpImm {
        op: ImmOp,
        rd: Reg,
        rs1: Reg,
        imm: Imm12,
    },
    /// A shift by an immediate.
    ShiftImm {
        op: ShiftOp,
        rd: Reg,
        rs1: Reg,
        amount: ShiftAmount,
    },
    /// An operation on two registers.
    Op {
        op: RegOp,
        rd: Reg,
        rs1: Reg,
        rs2: Reg,
    },
    /// FENCE, whatever it orders.
    Fence,
    /// ECALL.
    Ecall,
    /// EBREAK.
    Ebreak,
    /// MRET.
    Mret,
    /// WFI.
    Wfi,
    /// A CSR instruction with a register.
    CsrReg {
        op: CsrOp,
        rd: Reg,
        csr: CsrNumber,
        rs1: Reg,
    },
    /// A CSR instruction with an immediate.
    CsrImm {
        op: CsrOp,
        rd: Reg,
        csr: CsrNumber,
        imm: Uimm5,
    },
    /// An atomic memory operation, with its bits aq and rl.
    Amo {
        op: AmoOp,
        rd: Reg,
        rs1: Reg,
        rs2: Reg,
        acquire: bool,
        release: bool,
    },
}
