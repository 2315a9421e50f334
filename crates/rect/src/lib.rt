//! Rectangles of whole numbers: what they cover, what two of them share, and what it is to cut one up.
#![tactic(auto)]

pub mod cell;

ghost use Rattle.std.specs.Prelude.{◌≡◌, Some};
ghost use Rattle.rect.specs.Rects.{rect_text, region, shared, XywhAnswer};
ghost use Rattle.rect.specs.Spans.{area, holds, rect, span, width};
ghost use Rattle.rect.specs.Sums.{CountOne};

use std::fmt;

/// The rectangle [x0, x1) × [y0, y1); it is empty where an end is not above its start.
#[derive(Clone, Copy, Debug, PartialEq, Eq)]
pub struct IntRect {
    pub x0: u32,
    pub y0: u32,
    pub x1: u32,
    pub y1: u32,
}

impl IntRect {
    /// The rectangle with the given left, top, right and bottom edges.
    pub fn from_ltrb(x0: u32, y0: u32, x1: u32, y1: u32) -> IntRect
        ensures { region result ≡ rect (span x0 x1) (span y0 y1) }
    {
        IntRect { x0, y0, x1, y1 }
    }

    /// The rectangle of width `w` and height `h` from (x, y), if its ends are numbers of 32 bits.
    pub fn from_xywh(x: u32, y: u32, w: u32, h: u32) -> Option<IntRect>
        ensures { XywhAnswer x y w h result }
    {
        let x1 = x.checked_add(w)?;
        let y1 = y.checked_add(h)?;
        Some(IntRect {
            x0: x,
            y0: y,
            x1,
            y1,
        })
    }

    /// How wide it is (B-11); 0 where it is empty in this direction.
    pub fn width(&self) -> u32
        ensures { result ≡ width (region self.now).x }
    {
        self.x1.saturating_sub(self.x0)
    }

    /// How high it is (B-11); 0 where it is empty in this direction.
    pub fn height(&self) -> u32
        ensures { result ≡ width (region self.now).y }
    {
        self.y1.saturating_sub(self.y0)
    }

    /// The number of points in it.
    pub fn area(&self) -> u64
        ensures { result ≡ area (region self.now) }
    {
        u64::from(self.width()) * u64::from(self.height())
    }

    /// What both rectangles cover; zeros where they neither overlap nor touch.
    pub fn intersect(&self, other: IntRect) -> IntRect
        ensures { region result ≡ shared (region self.now) (region other) }
    {
        if self.x1 < other.x0 || other.x1 < self.x0 || self.y1 < other.y0 || other.y1 < self.y0 {
            return IntRect::from_ltrb(0, 0, 0, 0);
        }
        IntRect::from_ltrb(
            self.x0.max(other.x0),
            self.y0.max(other.y0),
            self.x1.min(other.x1),
            self.y1.min(other.y1),
        )
    }

    /// Whether the point (x, y) lies in it.
    pub fn holds(&self, x: u32, y: u32) -> bool
        ensures { result ≡ holds x y (region self.now) }
    {
        self.x0 <= x && x < self.x1 && self.y0 <= y && y < self.y1
    }
}

/// Its edges, as x0,y0,x1,y1.
impl fmt::Display for IntRect {
    ghost output = { λ r. Some (rect_text r) };

    fn fmt<W: fmt::Write>(&self, f: &mut fmt::Formatter<W>) -> fmt::Result {
        write!(f, "{},{},{},{}", self.x0, self.y0, self.x1, self.y1)
    }
}

/// Where one rectangle of a list holds a point, it is one place of the list.
pub fn count_one()
    ensures { CountOne }
{}
