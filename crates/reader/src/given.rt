// What a reply is made of: the request, and what the reader's device has for it.
use request::HEADER_LENGTH;

// The content of a frame whose check is right.
#[derive(Clone, Copy)]
pub(crate) struct Request<'a> {
    pub(crate) identifier: u8,
    pub(crate) code: u8,
    pub(crate) data: &'a [u8],
}

// The device header, and the antenna's answer.
#[derive(Clone, Copy)]
pub(crate) struct Device<'a> {
    pub(crate) header: [u8; HEADER_LENGTH],
    pub(crate) antenna: &'a [u8],
}
