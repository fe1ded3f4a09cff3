//! Images, and machines before their first step. The digest is sha256sum's.

use crate::lines::with_line_feeds;
use crate::tables::{all_right, number, row, word};
use ft_types::{Guest, Memory, PageNo};
use guest_image::{Image, ImageFault, Machine, read_image};
use std::alloc::Global;

/// lui x1, f0000; addi x2, x0, 42; sw x2, 8(x1), which is put out; sw x0, 20(x1), which halts.
static HALTS: &[u8] = b"harts 1\npages 1\nf00000b7\n02a00113\n0020a423\n0000aa23\n";

static DIGEST: [u8; 32] = [
    0x70, 0xb1, 0xf4, 0xd2, 0x5f, 0x41, 0x17, 0xb7, 0xcf, 0x66, 0xb8, 0x9e, 0xcf, 0x34, 0xed, 0x29,
    0xda, 0x8d, 0x8e, 0xe0, 0xbf, 0x8c, 0x5a, 0x7f, 0x05, 0x51, 0x14, 0x59, 0x92, 0x02, 0x54, 0x56,
];

/// The image of a right file: of another there is none, as where memory is refused.
fn image_of(alloc: Global, file: &[u8]) -> Result<Image, Memory> {
    match read_image(alloc, file) {
        Ok(image) => Ok(image),
        Err(_) => Err(Memory),
    }
}

/// The machine of a file before its first step.
pub fn booted(alloc: Global, file: &[u8]) -> Result<Machine, Memory> {
    let image = image_of(alloc, file)?;
    Machine::boot(alloc, &image.copy()?)
}

fn digest(guest: &Guest) -> ([u8; 32], u8) {
    (guest.digest(), guest.harts())
}

fn told(image: &Image) -> ([u8; 32], u8, u16) {
    (image.digest(), image.harts(), image.pages())
}

/// Whether the image has its digest, its hart, its page and its words.
fn is_whole(alloc: Global) -> Result<bool, Memory> {
    let image = image_of(alloc, HALTS)?;
    let words = [0xf00000b7, 0x02a00113, 0x0020a423, 0x0000aa23];
    Ok(
        told(&image) == (DIGEST, 1, 1)
            && digest(&image.guest()) == (DIGEST, 1)
            && image.words() == words.as_slice(),
    )
}

/// Adds the lines of so many words, less one: of a jump, and of noughts.
fn add_words(file: &mut Vec<u8>, words: u64) -> Result<(), Memory> {
    file.extend_from_slice(b"0000006f\n")?;
    for _word in 2..words {
        file.extend_from_slice(b"00000000\n")?;
    }
    Ok(())
}

/// A file by the number of its words, of which the first is a jump, its last word and its first lines, with semicolons for line feeds.
fn long_file(alloc: Global, told: &str) -> Result<Vec<u8>, Memory> {
    let (words, behind) = word(told);
    let (last, head) = word(behind);
    let mut file = with_line_feeds(alloc, head)?;
    add_words(&mut file, number(words))?;
    file.extend_from_slice(with_line_feeds(alloc, last)?.as_slice())?;
    Ok(file)
}

/// Whether a file is an image, or has a word too many, or is at fault in this line.
fn is_read(alloc: Global, file: &[u8], answer: &str) -> Result<bool, Memory> {
    match read_image(alloc, file) {
        Ok(_) => Ok(answer == "image"),
        Err(ImageFault::TooLarge) => Ok(answer == "too large"),
        Err(ImageFault::BadLine(line)) => Ok(number(answer) == line),
        Err(ImageFault::NoHarts) => Ok(false),
        Err(ImageFault::Memory) => Err(Memory),
    }
}

/// The ends of files whose RAM is full, or too small.
static ENDS: &str = "\
1024 deadbeef; harts 1;pages 1;|image
1025 00000000; harts 1;pages 1;|too large
1025 0000000; harts 1;pages 1;|1027
1025 00000000 harts 1;pages 1;|1027
262144 deadbeef; harts 32;pages 256;|image
262145 deadbeef; harts 32;pages 256;|too large
";

/// The first file that is read otherwise.
fn first_wrong(alloc: Global) -> Result<Option<&'static str>, Memory> {
    for line in ENDS.lines() {
        let (told, answer) = row(line);
        if !is_read(alloc, long_file(alloc, told)?.as_slice(), answer)? {
            return Ok(Some(line));
        }
    }
    Ok(None)
}

/// The first word of RAM and the last one, where it has 256 pages.
fn ends_of(machine: &Machine) -> Option<(u32, u32)> {
    if machine.pages() != 256 {
        return None;
    }
    let (first, last) = (PageNo::new(0), PageNo::new(255));
    let first = machine.page(first).read_word(0);
    Some((first, machine.page(last).read_word(4092)))
}

fn has_ends(alloc: Global) -> Result<bool, Memory> {
    let file = long_file(alloc, "262144 deadbeef; harts 1;pages 256;")?;
    Ok(ends_of(&booted(alloc, &file)?) == Some((0x0000_006f, 0xdead_beef)))
}

#[test]
fn images(rt: HostRuntime) -> Result<(), Memory> {
    assert!(rt; is_whole(rt.alloc())?);
    all_right(&rt, first_wrong(rt.alloc())?);
    assert!(rt; has_ends(rt.alloc())?);
    Ok(())
}
