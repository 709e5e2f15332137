//! What is planned: which line sends, what its second is like, and which samples the frame has.
ghost use Rattle.std.specs.Prelude.{◌≡◌, length};
ghost use Rattle.drill.specs.Slots.{sv_id_of, kind_of, is_fault_at, quality_at};

/// The two lines of the drill.
#[derive(Clone, Copy)]
pub enum Line {
    First,
    Second,
}

impl Line {
    /// The svID of the line's samples: four bytes.
    #[tactic(auto, unfolding(crate::specs::Slots::sv_id_of))]
    pub fn sv_id(self) -> &'static [u8]
        ensures value { result.now ≡ sv_id_of self }
        ensures four { length result.now ≡ 4 }
    {
        match self {
            Line::First => b"MU01",
            Line::Second => b"MU02",
        }
    }
}

/// What a second of a line is like.
#[derive(Clone, Copy)]
pub enum Kind {
    /// A ground fault of phase A, half a second long.
    Fault,
    /// Two frames, which have four samples, never come.
    Gap,
    /// One sample is marked as bad.
    BadSample,
    /// The line is healthy throughout.
    Healthy,
}

impl Kind {
    /// The kind that a word stands for: its remainder by four.
    pub fn of(word: u32) -> Kind
        ensures { result ≡ kind_of word }
    {
        match word % 4 {
            0 => Kind::Fault,
            1 => Kind::Gap,
            2 => Kind::BadSample,
            _ => Kind::Healthy,
        }
    }

    /// Whether the sample with this counter lies in a fault.
    pub fn is_fault_at(self, counter: u16) -> bool
        ensures { result ≡ is_fault_at self counter }
    {
        match self {
            Kind::Fault => 1464 <= counter && counter <= 3863,
            _ => false,
        }
    }

    /// The quality word of IA of the sample with this counter: 1 where it is bad.
    pub fn quality_at(self, counter: u16) -> u32
        ensures { result ≡ quality_at self counter }
    {
        match self {
            Kind::BadSample => u32::from(counter == 2000),
            _ => 0,
        }
    }
}

/// A frame's place in the plan.
#[derive(Clone, Copy)]
pub struct Slot {
    pub line: Line,
    /// What the line's second is like.
    pub kind: Kind,
    /// The counter of the first of the frame's two samples.
    pub counter: u16,
}

impl Slot {
    ghost use Rattle.std.specs.Prelude.{◌≡◌};
    ghost use Rattle.drill.specs.Slots.{is_left_out};

    /// Whether the frame never comes.
    pub fn is_left_out(&self) -> bool
        ensures { result ≡ is_left_out self.now }
    {
        match self.kind {
            Kind::Gap => self.counter == 1000 || self.counter == 1002,
            _ => false,
        }
    }
}
