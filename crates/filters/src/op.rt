//! The operations of a chain.
pub(crate) mod facts;

/// One operation on a whole frame.
#[derive(Clone, Copy, Debug, PartialEq, Eq)]
pub enum Op {
    /// Each sample becomes what a table has for it.
    Table(Table),
    /// Every plane is mirrored left to right.
    HFlip,
    /// Every plane is mirrored top to bottom.
    VFlip,
    /// A rectangle of every plane is taken.
    Crop(Crop),
    /// Every sample becomes the rounded mean of the square round it.
    Blur(Blur),
}

/// What each sample becomes. Samples of plane A stay.
#[derive(Clone, Copy, Debug, PartialEq, Eq)]
pub enum Table {
    /// 255 less the sample, in Y, Cb and Cr.
    Invert,
    /// In Y, 255 from this sample on and 0 below it; Cb and Cr become 128, which is no colour.
    Threshold(u8),
    /// In Y, at least `low`, and then at most `high`; Cb and Cr stay.
    Clamp { low: u8, high: u8 },
}

/// A rectangle of the frame, in pixels: its left upper corner and its size.
#[derive(Clone, Copy, Debug, PartialEq, Eq)]
pub struct Crop {
    pub x: u32,
    pub y: u32,
    pub width: u32,
    pub height: u32,
}

/// The square of a blur: its side is twice the radius and one, in the samples of each plane.
#[derive(Clone, Copy, Debug, PartialEq, Eq)]
pub struct Blur {
    pub radius: u32,
}
