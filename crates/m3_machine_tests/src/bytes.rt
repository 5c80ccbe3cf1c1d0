use std::alloc::AllocError;

/// Adds a number of four bytes, low byte first.
pub fn add(bytes: &mut Vec<u8>, number: u32) -> Result<(), AllocError> {
    bytes.extend_from_slice(&number.to_le_bytes())
}

/// Adds how many there are of something.
pub fn add_count(bytes: &mut Vec<u8>, count: usize) -> Result<(), AllocError> {
    add(bytes, u32::try_from(count).unwrap_or(u32::MAX))
}

/// Adds a list: the count of its numbers, and these.
pub fn add_list(bytes: &mut Vec<u8>, numbers: &[u32]) -> Result<(), AllocError> {
    add_count(bytes, numbers.len())?;
    for number in numbers {
        add(bytes, *number)?;
    }
    Ok(())
}

/// Adds a section: the count of its bytes, and these.
pub fn add_section(bytes: &mut Vec<u8>, content: &[u8]) -> Result<(), AllocError> {
    add_count(bytes, content.len())?;
    bytes.extend_from_slice(content)
}
