//! Names in tables.

/// The names of x0 to x31, four bytes each, with spaces behind them.
static REGISTER_NAMES: [u8; 128] =
    *b"zerora  sp  gp  tp  t0  t1  t2  s0  s1  a0  a1  a2  a3  a4  a5  a6  a7  s2  s3  s4  s5  s6  s7  s8  s9  s10 s11 t3  t4  t5  t6  ";

/// The name without the spaces behind it.
pub(crate) fn trimmed(name: &[u8]) -> &[u8] {
    match name.iter().position(|byte| *byte == b' ') {
        Some(end) => &name[..end],
        None => name,
    }
}

/// The name of a register.
pub(crate) fn register_name(number: u8) -> &'static [u8] {
    let place = (number % 32) as usize * 4;
    trimmed(&REGISTER_NAMES[place..place + 4])
}
