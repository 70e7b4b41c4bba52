// Stuffing and wire images: the length of a content's image, and the image written.
#![tactic(auto)]

mod image;
mod stuffing;

pub use image::{image_length, write_image};
pub use wire_spec::{ESCAPE, LAST_PARTNER, MOST_CONTENT, MOST_IMAGE, START, STOP};
