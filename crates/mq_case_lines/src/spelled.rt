// Values that the words of a line spell.
use std::alloc::{AllocError, Global};

/// The bytes that a text spells: `\n` is a line feed, `\s` a space, `\e` nothing, and a backslash before
/// another byte that byte.
pub fn unescaped(alloc: Global, text: &[u8]) -> Result<Vec<u8>, AllocError> {
    let mut bytes = Vec::new(alloc);
    let mut is_escaped = false;
    for byte in text {
        match (is_escaped, *byte) {
            (false, b'\\') => is_escaped = true,
            (false, plain) => bytes.push(plain)?,
            (true, escape) => {
                is_escaped = false;
                match escape {
                    b'n' => bytes.push(b'\n')?,
                    b's' => bytes.push(b' ')?,
                    b'e' => {}
                    other => bytes.push(other)?,
                }
            }
        }
    }
    Ok(bytes)
}

/// The words of a line, which are separated by spaces, each as `unescaped` gives it.
pub fn words_of(alloc: Global, line: &str) -> Result<Vec<String>, AllocError> {
    let mut words = Vec::new(alloc);
    for word in line.split_whitespace() {
        let bytes = unescaped(alloc, word.as_bytes())?;
        words.push(String::from_utf8_lossy(alloc, &bytes)?)?;
    }
    Ok(words)
}

/// `count` bytes of one value.
pub fn repeated(alloc: Global, count: usize, byte: u8) -> Result<Vec<u8>, AllocError> {
    let mut bytes = Vec::new(alloc);
    for _ in 0..count {
        bytes.push(byte)?;
    }
    Ok(bytes)
}

/// A sum of bytes (FNV-1a of 64 bits).
pub fn sum_of(bytes: &[u8]) -> u64 {
    let mut sum: u64 = 14_695_981_039_346_656_037;
    for byte in bytes {
        sum = (sum ^ u64::from(*byte)).wrapping_mul(1_099_511_628_211);
    }
    sum
}
