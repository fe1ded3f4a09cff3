//! Files of words: each word is a line.

ghost use Rattle.std.specs.Prelude.{◌≡◌, ◌++◌, ◌∷◌, ◌^◌, ◌<◌, [], ℕ, List, IfOk, IfErr, IfSome, IfNone, OnOk};
ghost use Rattle.ft_types.specs.Text.{line, word as word_of};
ghost use Rattle.asking.specs.Words.{IsFileOf, IsNoFile, LacksWord};

use ft_types::{Memory, first_line, read_word};
use std::alloc::Global;
use std::option::Option;
use std::result::Result;

/// Why a file is none of words.
#[derive(Clone, Copy, PartialEq, Eq)]
pub enum WordsFault {
    /// The line of this number, from 1, is no word, or has no end.
    BadLine(u64),
    /// A growth was refused.
    Memory,
}

/// The word that the first line is, and what stands behind the line.
fn read_one(bytes: &[u8]) -> Option<(u32, &[u8])>
    ensures found { IfSome result (λ f. (f.0 < 2 ^ 32) × (bytes.now ≡ line (word_of f.0) ++ f.1.now)) }
    ensures none { IfNone result (LacksWord bytes.now) }
{
    let (text, behind) = first_line(bytes)?;
    let word = read_word(text)?;
    Some((word, behind))
}

/// The words of a file.
pub fn read_words(alloc: Global, bytes: &[u8]) -> Result<Vec<u32>, WordsFault>
    ensures words { IfOk result (λ words. IsFileOf words.items bytes.now) }
    // The first line at fault decides.
    ensures fault { IfErr result (λ f. IsNoFile bytes.now f) }
{
    let mut words = Vec::new(alloc);
    let mut rest = bytes;
    while rest.len() > 0 {
        let Some((word, behind)) = read_one(rest) else {
            return Err(WordsFault::BadLine(words.len() as u64 + 1));
        };
        if words.push(word).is_err() {
            return Err(WordsFault::Memory);
        }
        rest = behind;
    }
    Ok(words)
}
