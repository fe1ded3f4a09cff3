//! Image files.

ghost use Rattle.std.specs.Prelude.{◌≡◌, ℕ, ◌+◌, ◌*◌, ◌^◌, ◌<◌, ◌≤◌, List, length, ◌⊎◌, IfOk, IfErr, MatchResult};
ghost use Rattle.sha2.specs.Sha256.{sha256};
ghost use Rattle.guest_image.specs.Image.{ImageContents, Fits, image_text, guest_of, IsFault};
ghost use Rattle.guest_image.specs.declared.fault.ImageFault.{ImageFault};

use crate::fault::ImageFault;
use crate::lines::{read_setting, read_words};
use ft_types::{Guest, HART_LIMIT, Memory, PAGE_LIMIT};
use sha2::{Digest, Sha256};
use std::alloc::Global;
use std::marker::Model;
use std::vec::Vec;

/// An image of a guest. Contracts see what the file says: the numbers of harts and pages, and the words.
pub struct Image {
    harts: u8,
    pages: u16,
    words: Vec<u32>,
    digest: [u8; 32],
}

impl Drop for Image {
    fn drop(self) {
        let Image {
            harts: _,
            pages: _,
            words: _,
            digest: _,
        } = self;
    }
}

impl Model for Image {
    ghost use Rattle.std.specs.Prelude.{◌≡◌};
    ghost use Rattle.sha2.specs.Sha256.{sha256};
    ghost use Rattle.guest_image.specs.Image.{ImageContents, Fits, image_text};

    ghost Value = { ImageContents };

    ghost view = { λ i. record { harts = i.harts; pages = i.pages; words = i.words.items } };

    ghost invariant = { λ i. Fits (record { harts = i.harts; pages = i.pages; words = i.words.items }) ×
        (i.digest ≡ sha256 (image_text (record { harts = i.harts; pages = i.pages; words = i.words.items }))) };
}

impl Image {
    /// The number of harts, 1 to `HART_LIMIT`.
    pub fn harts(&self) -> u8
        ensures value { result ≡ self.now.harts }
        ensures some { 0 < result }
        ensures limit { result ≤ HART_LIMIT }
    {
        self.harts
    }

    /// The number of pages, 1 to `PAGE_LIMIT`.
    pub fn pages(&self) -> u16
        ensures value { result ≡ self.now.pages }
        ensures some { 0 < result }
        ensures limit { result ≤ PAGE_LIMIT }
    {
        self.pages
    }

    /// The words, from the first address of RAM upwards.
    pub fn words(&self) -> &[u32]
        ensures value { result.now ≡ self.now.words }
        ensures fits { Fits self.now }
    {
        self.words.as_slice()
    }

    /// SHA-256 of the image file's bytes.
    pub fn digest(&self) -> [u8; 32]
        ensures { result ≡ sha256 (image_text self.now) }
    {
        self.digest
    }

    /// The guest that this is the image of.
    pub fn guest(&self) -> Guest
        ensures { result ≡ guest_of self.now }
    {
        Guest::new(self.digest(), self.harts()).unwrap()
    }

    /// An equal image.
    pub fn copy(&self) -> Result<Image, Memory>
        ensures { IfOk result (λ i. i ≡ self.now) }
    {
        let words = self.words.clone()?;
        Ok(Image {
            harts: self.harts,
            pages: self.pages,
            words,
            digest: self.digest,
        })
    }
}

fn read_parts(alloc: Global, bytes: &[u8]) -> Result<Image, ImageFault>
    // What is read is spelled so.
    ensures found { IfOk result (λ i. Fits i × (bytes.now ≡ image_text i)) }
    // The first line at fault decides.
    ensures fault { IfErr result (λ e. IsFault bytes.now e) }
{
    match read_setting(b"harts ", bytes) {
        None => Err(ImageFault::NoHarts),
        Some((harts, behind)) => {
            if harts > u64::from(HART_LIMIT) {
                return Err(ImageFault::TooLarge);
            }
            match read_setting(b"pages ", behind) {
                None => Err(ImageFault::BadLine(2)),
                Some((pages, behind)) => {
                    if pages > u64::from(PAGE_LIMIT) {
                        return Err(ImageFault::TooLarge);
                    }
                    match read_words(alloc, pages as u16, behind) {
                        Err(fault) => Err(fault),
                        Ok(words) => Ok(Image {
                            harts: harts as u8,
                            pages: pages as u16,
                            words,
                            digest: Sha256::digest(bytes),
                        }),
                    }
                }
            }
        }
    }
}

/// Reads an image file.
pub fn read_image(alloc: Global, bytes: &[u8]) -> Result<Image, ImageFault>
    // What is read is spelled so.
    ensures found { IfOk result (λ i. Fits i × (bytes.now ≡ image_text i)) }
    // The first line at fault decides.
    ensures fault { IfErr result (λ e. IsFault bytes.now e) }
    // What is spelled so is read, unless memory runs out.
    ensures only { (i : ImageContents) → Fits i → bytes.now ≡ image_text i → MatchResult result (λ j. j ≡ i) (λ e. e ≡ ImageFault.Memory) }
    // A file with a fault has that fault, unless memory runs out.
    ensures exact { (f : ImageFault) → (f ≡ ImageFault.Memory → ⊥) → IsFault bytes.now f → MatchResult result (λ j. ⊥) (λ e. (e ≡ ImageFault.Memory) ⊎
        (e ≡ f)) }
{
    read_parts(alloc, bytes)
}
