//! Fields of a text, up to the byte that ends them, and fixed words.
ghost use Rattle.std.specs.Prelude.{◌≡◌, ◌≢◌, ℕ, List, ◌∷◌, ◌++◌, IfSome, IsSomeAnd};
ghost use Rattle.std.specs.List.{AllByRecursion};

/// The bytes before the first `end`, and those behind it.
pub(crate) fn field<'a>(text: &'a [u8], end: u8) -> Option<(&'a [u8], &'a [u8])>
    ensures sound { IfSome result (λ r. text.now ≡ r.0.now ++ end ∷ r.1.now) }
    ensures free { IfSome result (λ r. AllByRecursion (λ b. b ≢ end) r.0.now) }
    ensures complete { (bytes rest : List ℕ) → AllByRecursion (λ b. b ≢ end) bytes → text.now ≡ bytes ++ end ∷ rest →
        IsSomeAnd result (λ r. (r.0.now ≡ bytes) × (r.1.now ≡ rest)) }
{
    for (i, byte) in text.iter().enumerate() {
        if *byte == end {
            return Some((&text[..i], &text[i + 1..]));
        }
    }
    None
}

/// The bytes behind a word, where the text begins with it.
pub(crate) fn after<'a>(text: &'a [u8], word: &[u8]) -> Option<&'a [u8]>
    ensures sound { IfSome result (λ left. text.now ≡ word.now ++ left.now) }
    ensures complete { (rest : List ℕ) → text.now ≡ word.now ++ rest → IsSomeAnd result (λ left. left.now ≡ rest) }
{
    text.strip_prefix(word)
}
