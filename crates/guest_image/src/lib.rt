//! Images of guests, machines that start from them, and the text of a machine.
#![tactic(auto)]

mod decoded_page;
mod fault;
mod front;
mod image;
mod lines;
mod machine;
mod machine_page;
mod page;
mod text;

pub use decoded_page::{DecodedPage, SharedPage};
pub use fault::ImageFault;
pub use image::{Image, read_image};
pub use machine::Machine;
pub use page::Page;
pub use text::put_word_line_before;
