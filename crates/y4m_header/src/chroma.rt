//! The chroma forms.
ghost use Rattle.std.specs.Prelude.{◌≡◌, ◌<◌, ◌↔◌, Some};
ghost use Rattle.std.specs.Option.{option_copied};
ghost use Rattle.y4m_header.specs.Chroma.{NamesChroma};

/// How the chroma planes of a frame are sampled, as the value of the tag C says.
///
/// The planes lie in the order Y, Cb, Cr, A. Y and A have a sample for each pixel; the divisors say how many
/// columns and rows of pixels share one sample of Cb and Cr.
#[derive(Clone, Copy, Debug, PartialEq, Eq)]
pub enum Chroma {
    S420,
    S422,
    S411,
    S444,
    S444Alpha,
    Mono,
}

/// The horizontal and the vertical divisor of the planes Cb and Cr.
#[derive(Clone, Copy)]
pub struct Divisors {
    pub horizontal: u32,
    pub vertical: u32,
}

impl Chroma {
    ghost use Rattle.y4m_header.specs.Chroma.{horizontal_divisor, vertical_divisor, plane_count};

    /// The form that the value of the tag C names; without a tag C there is no value.
    pub fn of_tag(value: Option<&[u8]>) -> Option<Chroma>
        ensures { (chroma : Chroma)
            → (result ≡ Some chroma) ↔ NamesChroma (option_copied value.entry) chroma }
    {
        match value {
            None => Some(Chroma::S420),
            Some(name) => form_of(name),
        }
    }

    /// The divisors of planes 1 and 2; of a form without these planes they are 1.
    pub fn divisors(self) -> Divisors
        ensures horizontal { result.horizontal ≡ horizontal_divisor self }
        ensures vertical { result.vertical ≡ vertical_divisor self }
    {
        let (horizontal, vertical) = match self {
            Chroma::S420 => (2, 2),
            Chroma::S422 => (2, 1),
            Chroma::S411 => (4, 1),
            Chroma::S444 | Chroma::S444Alpha | Chroma::Mono => (1, 1),
        };
        Divisors {
            horizontal,
            vertical,
        }
    }

    /// How many planes a frame has.
    pub fn planes(self) -> usize
        ensures { result ≡ plane_count self }
    {
        match self {
            Chroma::S420 | Chroma::S422 | Chroma::S411 | Chroma::S444 => 3,
            Chroma::S444Alpha => 4,
            Chroma::Mono => 1,
        }
    }
}

/// The values of C that are read, each with its form. The forms of 4:2:0 differ in where the chroma samples
/// lie, and in nothing else.
const FORMS: [(&str, Chroma); 9] = [
    ("420", Chroma::S420),
    ("420jpeg", Chroma::S420),
    ("420mpeg2", Chroma::S420),
    ("420paldv", Chroma::S420),
    ("422", Chroma::S422),
    ("411", Chroma::S411),
    ("444", Chroma::S444),
    ("444alpha", Chroma::S444Alpha),
    ("mono", Chroma::Mono),
];

/// The form that a value of C names.
fn form_of(name: &[u8]) -> Option<Chroma>
    ensures { (chroma : Chroma) → (result ≡ Some chroma) ↔ NamesChroma (Some name.now) chroma }
{
    for (value, form) in FORMS {
        if name == value.as_bytes() {
            return Some(form);
        }
    }
    None
}
