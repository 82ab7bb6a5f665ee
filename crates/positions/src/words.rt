// Words in a text: fixed byte strings.

ghost use Rattle.std.specs.Prelude.{◌≡◌};
ghost use Rattle.model.specs.Outlines.{starts_with, is_word};

// Whether a word stands at the front of a text.
pub fn starts_with(text: &[u8], word: &[u8]) -> bool
    ensures { result ≡ starts_with word.now text.now }
{
    text.starts_with(word)
}

// Whether a text is a word.
pub fn is_word(text: &[u8], word: &[u8]) -> bool
    ensures { result ≡ is_word word.now text.now }
{
    text == word
}
