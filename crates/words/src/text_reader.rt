//! A reader of a text.
ghost use Rattle.std.specs.Prelude.{◌+◌, ◌^◌, ◌<◌, length};

/// Hands out the lines of a text: what is left behind those that were handed out, and how many those were.
#[derive(Drop)]
pub struct TextReader<'a> {
    pub rest: &'a [u8],
    pub line: usize,
    ghost few: { line + length rest.now < 2 ^ 63 },
}
