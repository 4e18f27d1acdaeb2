//! Lines that a process writes.
use std::alloc::Global;
use std::io::Read;
use std::test::Fail;

/// The next line, without its newline; of a longer line, the first 500 bytes.
///
/// # Errors
/// If a byte cannot be read, or memory is refused.
pub fn read_line<R: Read>(alloc: Global, reader: &mut R) -> Result<String, Fail> {
    let mut line = String::new(alloc);
    for _ in 0..500u32 {
        let mut byte = [0u8; 1];
        reader.read_exact(&mut byte)?;
        if byte[0] == b'\n' {
            break;
        }
        line.push(char::from(byte[0]))?;
    }
    Ok(line)
}
