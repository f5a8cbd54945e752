use std::alloc::Global;
use std::test::Fail;

/// The number that the digits represent.
pub(crate) fn number(word: Option<&str>) -> Result<usize, Fail> {
    Ok(word.ok_or("a number")?.parse::<usize>()?)
}

/// This many bytes.
pub(crate) fn filled(alloc: Global, byte: u8, length: usize) -> Result<Vec<u8>, Fail> {
    Ok(vec![in alloc; byte; length]?)
}
