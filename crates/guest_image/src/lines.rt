//! The lines of an image file.

ghost use Rattle.std.specs.Prelude.{◌≡◌, ℕ, ◌+◌, ◌*◌, ◌^◌, ◌<◌, ◌≤◌, ◌++◌, ◌∷◌, [], length, IfSome, IfNone, IfOk, IfErr};
ghost use Rattle.std.specs.List.{AllByRecursion};
ghost use Rattle.guest_image.specs.Image.{Sets, LacksSetting, StartsWithWord, LacksWord, WordsThen, IsWordFault};

use crate::fault::ImageFault;
use ft_types::{PAGE_LIMIT, first_line, read_number, read_word};
use rv32_hart::PAGE_WORDS;
use std::alloc::Global;
use std::option::Option;
use std::vec::Vec;

/// The number of the first line, where that is the name and a number that isn't 0, and what stands behind the line.
pub(super) fn read_setting<'a>(name: &[u8], bytes: &'a [u8]) -> Option<(u64, &'a [u8])>
    requires { AllByRecursion (λ b. b ≡ 10 → ⊥) name.now }
    ensures found { IfSome result (λ f. Sets bytes.now name.now f.0 f.1.now) }
    ensures none { IfNone result (LacksSetting bytes.now name.now) }
{
    match first_line(bytes) {
        None => None,
        Some((text, rest)) => match text.strip_prefix(name) {
            None => None,
            Some(digits) => match read_number(digits) {
                None => None,
                Some(number) => {
                    if number == 0 {
                        None
                    } else {
                        Some((number, rest))
                    }
                }
            },
        },
    }
}

/// The word of the first line, and what stands behind the line.
fn read_word_line(bytes: &[u8]) -> Option<(u32, &[u8])>
    ensures found { IfSome result (λ f. StartsWithWord bytes.now f.0 f.1.now) }
    ensures none { IfNone result (LacksWord bytes.now) }
{
    match first_line(bytes) {
        None => None,
        Some((text, rest)) => match read_word(text) {
            None => None,
            Some(word) => Some((word, rest)),
        },
    }
}

/// The words of all lines.
pub(super) fn read_words(alloc: Global, pages: u16, bytes: &[u8]) -> Result<Vec<u32>, ImageFault>
    requires { pages ≤ PAGE_LIMIT }
    ensures found { IfOk result (λ v. WordsThen pages bytes.now v.items []) }
    ensures fault { IfErr result (λ e. IsWordFault pages bytes.now e) }
{
    let room = pages as usize * PAGE_WORDS as usize;
    let mut words = Vec::new(alloc);
    let mut rest = bytes;
    while rest.len() > 0 {
        match read_word_line(rest) {
            None => return Err(ImageFault::BadLine(words.len() as u64 + 3)),
            Some((word, behind)) => {
                if words.len() >= room {
                    return Err(ImageFault::TooLarge);
                }
                if words.push(word).is_err() {
                    return Err(ImageFault::Memory);
                }
                rest = behind;
            }
        }
    }
    Ok(words)
}
