// The instructions of RV32IM with Zaamo and Zicsr, and the words that encode them.
#![tactic(auto)]

mod decoding;
mod encoding;
mod fields;
mod instruction;
mod operands;

pub use decoding::decode;
pub use encoding::encode;
pub use instruction::{Comparison, CsrOp, ImmOp, Instr, LoadKind, RegOp, ShiftOp, StoreKind};
pub use operands::{BranchOffset, CsrNumber, Imm12, JumpOffset, Reg, ShiftAmount, Uimm5, UpperImm};
pub use zaamo::AmoOp;
