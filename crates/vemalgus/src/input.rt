//! The text from standard input.
use std::io::Read;
use words::text::MOST_BYTES;

/// The bytes of standard input, one more than a text may have at most: a longer text is refused whatever follows.
pub fn read_text(rt: &HostRuntime) -> anyhow::Result<Vec<u8>> {
    let mut text = Vec::new(rt.alloc());
    rt.stdin()
        .take(MOST_BYTES as u64 + 1)
        .read_to_end(&mut text)?;
    Ok(text)
}
