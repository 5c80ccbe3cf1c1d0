use thiserror::Error;

/// Why bytes are no image: the first condition that they meet, in the order of the reader's tests.
#[derive(Clone, Copy, Debug, PartialEq, Eq, Error)]
pub enum ImageRefusal {
    /// Bytes are missing: of the first four, of the version, or of a section.
    #[error("short")]
    Short,
    /// The first four bytes aren't M3IM.
    #[error("magic")]
    Magic,
    /// The version is neither 1 nor 2.
    #[error("version")]
    Version,
    /// A section, by its number from 1, breaks its form.
    #[error("section {0}")]
    Section(u32),
    /// The eight bytes of this number, from 0, are no instruction.
    #[error("instruction {0}")]
    Instruction(u32),
    /// The instruction of this number names what isn't there.
    #[error("target {0}")]
    Target(u32),
    /// The row of this number is bad, or, with the number of rows, the directory or the end of the tables.
    #[error("table {0}")]
    Table(u32),
    /// Bytes follow the last section.
    #[error("rest")]
    Rest,
}
