use std::alloc::{AllocError, Global};

fn digit(b: u8) -> Option<u8> {
    match b {
        b'0'..=b'9' => Some(b - b'0'),
        b'a'..=b'f' => Some(b - b'a' + 10),
        _ => None,
    }
}

// The bytes that a text has in hexadecimal; a lone hyphen has none. By hand, since the library refuses a text with a hyphen.
pub fn unhexed(heap: Global, hex: &str) -> Result<Vec<u8>, AllocError> {
    let mut bytes = Vec::new(heap);
    let mut first = None;
    for b in hex.as_bytes() {
        first = match (first, digit(*b)) {
            (_, None) => None,
            (None, high) => high,
            (Some(high), Some(low)) => {
                bytes.push((high & 15) * 16 + (low & 15))?;
                None
            }
        };
    }
    Ok(bytes)
}

// Bytes in hexadecimal; a hyphen where there are none.
pub fn hexed(heap: Global, bytes: &[u8]) -> Result<String, AllocError> {
    if bytes.is_empty() {
        String::from_str(heap, "-")
    } else {
        hex::encode(heap, bytes)
    }
}

// Appends the bytes, a number from 1 on and the other bytes, so many times.
pub fn append_numbered(
    heap: Global,
    file: &mut Vec<u8>,
    count: usize,
    before: &[u8],
    after: &[u8],
) -> Result<(), AllocError> {
    for number in 1..=count {
        let digits = format!(in heap; "{number}")?;
        file.extend_from_slice(before)?;
        file.extend_from_slice(digits.as_str().as_bytes())?;
        file.extend_from_slice(after)?;
    }
    Ok(())
}
