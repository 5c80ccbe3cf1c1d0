use m3_image_decoded::Decoded;
use m3_run_meaning::near::Stack;

/// The turn of a thread: the image whose instructions it carries out, and where its stack is.
#[derive(Clone, Copy)]
pub(crate) struct Turn<'a> {
    pub(crate) image: &'a Decoded<'a>,
    pub(crate) stack: Stack,
}
