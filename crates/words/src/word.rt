//! Names and numbers.
ghost use Rattle.std.specs.Prelude.{◌≡◌, ◌≤◌, true, length};
ghost use Rattle.words.specs.Words.{is_name, number_of, each, within, decimal, reserved};

/// The longest name, in letters.
pub const MOST_LETTERS: usize = 8;

/// The longest number, in digits.
pub const MOST_DIGITS: usize = 4;

/// Whether a word has a meaning of its own in conditions, so that it names no variable.
fn is_reserved(word: &[u8]) -> bool
    ensures { result ≡ reserved word.now }
{
    matches!(word, b"always" | b"and" | b"or" | b"not")
}

/// Whether a word is a name: 1 to 8 letters from a to z, and not reserved.
pub fn is_name(word: &[u8]) -> bool
    ensures { result ≡ is_name word.now }
{
    !word.is_empty()
        && word.len() <= MOST_LETTERS
        && word.iter().all(u8::is_ascii_lowercase)
        && !is_reserved(word)
}

/// The number that at most four digits write.
fn decimal_value(word: &[u8]) -> u16
    requires short { length word.now ≤ 4 }
    requires digits { each (within 48 57) word.now ≡ true }
    ensures { result ≡ decimal 0 word.now }
{
    word.iter().fold(0, |n, b| n * 10 + u16::from(*b - b'0'))
}

/// The number that a word is: 1 to 4 digits, the first of several not 0.
pub fn number_of(word: &[u8]) -> Option<u16>
    ensures { result ≡ number_of word.now }
{
    if word.is_empty() || word.len() > MOST_DIGITS || !word.iter().all(u8::is_ascii_digit) {
        return None;
    }
    if word.len() > 1 && word[0] == b'0' {
        return None;
    }
    Some(decimal_value(word))
}
