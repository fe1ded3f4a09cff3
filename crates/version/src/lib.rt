//! The version of both programs.

/// The version, the commit behind which it was made, and the kit that it is built by.
pub const VERSION: &str = "0.9.0 (commit 953f5a7b, rattle-kit-13f)";
