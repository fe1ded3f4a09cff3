//! Guests of plays.

/// lui x1, 80000; addi x2, x0, 42; sw x2, 64(x1); lw x3, 64(x1); lui x4, f0000; sw x0, 20(x4), which halts.
pub const STORES_AND_HALTS: &[u8] =
    b"harts 1\npages 1\n800000b7\n02a00113\n0420a023\n0400a183\nf0000237\n00022a23\n";

/// One hart that jumps to where it is.
pub const LOOP: &[u8] = b"harts 1\npages 1\n0000006f\n";

/// Three harts that jump to where they are.
pub const LOOPS: &[u8] = b"harts 3\npages 3\n0000006f\n";

/// lui x1, f0000; then again and again addi x2, x2, 1; sw x2, 8(x1), which is an output; and back.
pub const COUNTS_ALOUD: &[u8] = b"harts 1\npages 1\nf00000b7\n00110113\n0020a423\nff9ff06f\n";

/// The same of two harts.
pub const BOTH_COUNT_ALOUD: &[u8] = b"harts 2\npages 1\nf00000b7\n00110113\n0020a423\nff9ff06f\n";

/// lui x1, 80001; addi x2, x0, 600; addi x3, x0, 1; then 600 times amoadd.w x0, x3, (x1); addi x2, x2, -1; bne x2, x0, -8;
/// then lui x4, f0000; sw x0, 20(x4), which halts.
pub const ADDS: &[u8] =
    b"harts 4\npages 2\n800010b7\n25800113\n00100193\n0030a02f\nfff10113\nfe011ce3\nf0000237\n00022a23\n";
