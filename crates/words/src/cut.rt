//! Bytes cut at a byte.
ghost use Rattle.std.specs.Prelude.{◌≡◌, ◌<◌, [], ◌∷◌, length, MatchOption, IfSome};
ghost use Rattle.words.specs.Pieces.{pieces};

/// The first piece of some bytes, and what stands behind the byte that ends it.
#[derive(Clone, Copy)]
pub(crate) struct Cut<'a> {
    pub(crate) piece: &'a [u8],
    pub(crate) rest: &'a [u8],
}

/// The first piece of some bytes, up to the first `end`, or None where there are no bytes.
pub(crate) fn first_piece(s: &[u8], end: u8) -> Option<Cut<'_>>
    ensures cuts { MatchOption result (s.now ≡ []) (λ c. pieces end s.now ≡ c.piece.now ∷ pieces end c.rest.now) }
    ensures shorter { IfSome result (λ c. length c.rest.now < length s.now) }
{
    match s.iter().position(|b| *b == end) {
        Some(n) => Some(Cut {
            piece: &s[..n],
            rest: &s[n + 1..],
        }),
        None if s.is_empty() => None,
        None => Some(Cut {
            piece: s,
            rest: &[],
        }),
    }
}
