// Normalising.
ghost use Rattle.std.specs.Prelude.{◌≡◌};
ghost use Rattle.gtc_records.specs.Normalise.{normalised};

use crate::transformation::Transformation;

// Normalised intensities.
#[repr(C)]
#[derive(Clone, Copy)]
pub struct Point {
    pub x: f32,
    pub y: f32,
}

// The normalised intensities of x and y, with the cosine and sine of the transformation's theta.
pub fn normalise(t: Transformation, x: u16, y: u16, cos: f32, sin: f32) -> Point
    ensures { result ≡ normalised t x y cos sin }
{
    let tempx = (x as f32) - t.offset_x;
    let tempy = (y as f32) - t.offset_y;
    let tempx2 = cos * tempx + sin * tempy;
    let tempy2 = -sin * tempx + cos * tempy;
    let tempx3 = tempx2 - t.shear * tempy2;
    Point {
        x: tempx3 / t.scale_x,
        y: tempy2 / t.scale_y,
    }
}
