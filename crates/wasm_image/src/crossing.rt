// That an image may move between threads and be shared by them.
use crate::images::Image;

fn crosses<T: Send + Sync>(_x: &T) {}

/// An image may move between threads and be shared by them.
pub fn image_crosses(image: &Image) {
    crosses(image);
}
