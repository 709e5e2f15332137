//! Laws of the definitions: what is proved of them for all bytes.
ghost use Rattle.std.specs.Prelude.{◌≡◌, ◌≢◌, ℕ, ◌<◌, ◌≤◌, ◌*◌, ◌-◌, ◌%◌, ◌^◌, ◌++◌, List, All, length, Some};
ghost use Rattle.ber_fields.specs.Element.{Element, element, IsLength, Fronts, element_at};
ghost use Rattle.ber_fields.specs.Written.{field, length_text, signed_size};

/// Law: bytes begin with one element at most, and with one rest behind it.
pub fn show_one_reading()
    ensures { (bytes : List ℕ) (e f : Element) (x y : List ℕ) → Fronts bytes e x → Fronts bytes f y → (e ≡ f) × (x ≡ y) }
{}

/// Law: an element that was written is read again, whatever follows it.
pub fn show_written_is_read()
    ensures { (tag : ℕ) (contents rest : List ℕ) → tag % 32 ≢ 31 → length contents < 2 ^ 16 →
        element_at (field tag contents ++ rest) ≡ Some (element tag contents, rest) }
{}

/// Law: a length is written in the fewest bytes that spell it.
pub fn show_shortest_length()
    ensures { (n : ℕ) (spelling : List ℕ) → n < 2 ^ 16 → All (λ b. b < 256) spelling → IsLength spelling n → length (length_text n) ≤ length spelling }
{}

/// Law: a number is written in the fewest bytes that leave the first one's top bit to the sign.
pub fn show_shortest_number()
    ensures fits { (n : ℕ) → n < 2 ^ 32 → n < 2 ^ (8 * signed_size n - 1) }
    ensures fewest { (n size : ℕ) → 0 < size → n < 2 ^ (8 * size - 1) → signed_size n ≤ size }
{}
