//! Registers of a hart, by gdb's numbers.

ghost use Rattle.std.specs.Prelude.{◌≡◌, ◌<◌, ◌++◌, slice_index, IfOk, OnOk, option_map};
ghost use Rattle.rv32_hart.specs.Csrs.{read_csr};
ghost use Rattle.debugging.specs.Shown.{word_digits, words_of, registers_text, register_at, or_wrong};

use ft_types::Memory;
use rv32_hart::HartState;
use std::alloc::Global;

/// The number of pc.
pub(crate) const PC_NUMBER: u32 = 32;

/// The number of the CSR at address 0; the others stand behind it.
pub(crate) const CSR_NUMBER: u32 = 65;

/// The CSR at an address.
#[tactic(auto, unfolding(rv32_hart::specs::Csrs::read_csr))]
fn csr_word(hart: &HartState, address: u32) -> Option<u32>
    ensures { result ≡ read_csr hart.now address }
{
    let [mstatus, mie, mip, mtvec, mscratch, mepc, mcause] = hart.csr_words();
    match address {
        0x300 => Some(mstatus),
        0x304 => Some(mie),
        0x305 => Some(mtvec),
        0x340 => Some(mscratch),
        0x341 => Some(mepc),
        0x342 => Some(mcause),
        0x343 => Some(0),
        0x344 => Some(mip),
        0xf14 => Some(u32::from(hart.number().number())),
        _ => None,
    }
}

/// The word of a register of x0 to x31.
#[tactic(auto, using(crate::proofs::Showing::word_behind))]
fn general_word(hart: &HartState, number: u32) -> u32
    requires { number < 32 }
    ensures { result ≡ slice_index (words_of hart.now) number }
{
    if number == 0 {
        return 0;
    }
    hart.registers()[number as usize - 1]
}

/// The register with this number.
pub(crate) fn register_word(hart: &HartState, number: u32) -> Option<u32>
    ensures { result ≡ register_at hart.now number }
{
    if number < PC_NUMBER {
        return Some(general_word(hart, number));
    }
    if number == PC_NUMBER {
        return Some(hart.pc());
    }
    if number < CSR_NUMBER {
        return None;
    }
    csr_word(hart, number - CSR_NUMBER)
}

/// Puts a word: two digits for each byte, the lowest byte first.
pub(crate) fn put_word(text: &mut Vec<u8>, word: u32) -> Result<(), Memory>
    ensures { OnOk result (text.new.items ≡ text.old.items ++ word_digits word) }
{
    let mut digits = [0; 8];
    let _fits = hex::encode_to_slice(word.to_le_bytes(), &mut digits);
    text.extend_from_slice(&digits)?;
    Ok(())
}

/// x0 to x31 and pc.
pub(crate) fn registers_text(alloc: Global, hart: &HartState) -> Result<Vec<u8>, Memory>
    ensures { IfOk result (λ text. text.items ≡ registers_text hart.now) }
{
    let mut text = Vec::new(alloc);
    put_word(&mut text, 0)?;
    let words = hart.registers();
    for word in words {
        put_word(&mut text, *word)?;
    }
    put_word(&mut text, hart.pc())?;
    Ok(text)
}

/// The register with this number; where there is none, that it is wrong.
pub(crate) fn register_text(alloc: Global, hart: &HartState, number: u32) -> Result<Vec<u8>, Memory>
    ensures { IfOk result (λ text. text.items ≡ or_wrong (option_map word_digits (register_at hart.now number))) }
{
    let Some(word) = register_word(hart, number) else {
        return Ok(b"E02".to_vec(alloc)?);
    };
    let mut text = Vec::new(alloc);
    put_word(&mut text, word)?;
    Ok(text)
}
