//! Laws of the definitions: what is proved of all frames of every drill.
ghost use Rattle.std.specs.Prelude.{ℕ, ◌≡◌, ◌+◌, ◌*◌, length, count_by};
ghost use Rattle.std.specs.List.{All};
ghost use Rattle.drill.specs.DrawnWords.{generator_of, words_from};
ghost use Rattle.drill.specs.Slots.{kind_of, is_gap};
ghost use Rattle.drill.specs.PlannedFrames.{frames_of};

/// Law: there are 4800 frames a second, but two fewer for each second of a line that loses two.
pub fn show_how_many_frames()
    ensures { (seed seconds : ℕ) →
        length (frames_of seed seconds) + 2 * count_by (λ word. is_gap (kind_of word)) (words_from (2 * seconds) (generator_of seed))
        ≡ 4800 * seconds }
{}

/// Law: each frame has 205 bytes.
pub fn show_how_long_frames()
    ensures { (seed seconds : ℕ) → All (λ frame. length frame ≡ 205) (frames_of seed seconds) }
{}
