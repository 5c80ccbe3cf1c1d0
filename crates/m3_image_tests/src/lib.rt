//! The tests of images: of reading and writing them, of their text, and of the frames that their
//! rows describe.
#![tactic(auto)]

#[cfg(test)]
mod dumping;
#[cfg(test)]
mod frames;
#[cfg(test)]
mod images;
#[cfg(test)]
mod reading;
#[cfg(test)]
mod writing;
