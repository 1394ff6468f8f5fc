// What is to be written, with its status.
use crate::status::Status;

/// A status, and the bytes that are to be written with it.
#[derive(Drop)]
pub struct Written {
    pub status: Status,
    pub bytes: Vec<u8>,
}
