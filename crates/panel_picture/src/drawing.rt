// The drawn panel: the lens power -0.75 in strokes four pixels thick, on a plain ground. Luma and chroma are drawn directly, level-shifted: 0 is
// mid grey.
ghost use Rattle.std.specs.Prelude.{◌≡◌, ◌+◌, ◌≤◌, length};

// Where the minus stroke lies: ten columns, four rows.
pub const MINUS_LEFT: usize = 3;

pub const MINUS_TOP: usize = 30;

// The first row of the digits, which are 28 rows high and twelve columns wide.
const TOP: usize = 18;

// Fills a rectangle.
fn rectangle(plane: &mut [i16], left: usize, top: usize, width: usize, height: usize, value: i16)
    requires { (left + width ≤ 64) × (top + height ≤ 64) × (length plane.old ≡ 4096) }
{
    for row in top..top + height {
        let from = 64 * row + left;
        plane[from..from + width].fill(value);
    }
}

// One of the seven segments of a digit.
#[derive(Clone, Copy)]
enum Segment {
    Top,
    TopRight,
    BottomRight,
    Bottom,
    BottomLeft,
    TopLeft,
    Middle,
}

const ZERO: [Segment; 6] = [
    Segment::Top,
    Segment::TopRight,
    Segment::BottomRight,
    Segment::Bottom,
    Segment::BottomLeft,
    Segment::TopLeft,
];

const FIVE: [Segment; 5] = [
    Segment::Top,
    Segment::BottomRight,
    Segment::Bottom,
    Segment::TopLeft,
    Segment::Middle,
];

const SEVEN: [Segment; 3] = [Segment::Top, Segment::TopRight, Segment::BottomRight];

// Fills a segment of a digit whose first column is `left`.
fn fill_segment(plane: &mut [i16], left: usize, segment: Segment, value: i16)
    requires { (left ≤ 52) × (length plane.old ≡ 4096) }
{
    match segment {
        Segment::Top => rectangle(plane, left, TOP, 12, 4, value),
        Segment::TopRight => rectangle(plane, left + 8, TOP, 4, 16, value),
        Segment::BottomRight => rectangle(plane, left + 8, TOP + 12, 4, 16, value),
        Segment::Bottom => rectangle(plane, left, TOP + 24, 12, 4, value),
        Segment::BottomLeft => rectangle(plane, left, TOP + 12, 4, 16, value),
        Segment::TopLeft => rectangle(plane, left, TOP, 4, 16, value),
        Segment::Middle => rectangle(plane, left, TOP + 12, 12, 4, value),
    }
}

// Draws a digit from the column `left` on.
fn digit(plane: &mut [i16], left: usize, segments: &[Segment], value: i16)
    requires { (left ≤ 52) × (length plane.old ≡ 4096) }
{
    for segment in segments {
        fill_segment(plane, left, *segment, value);
    }
}

// One component of the panel, with its value on the ground and on the strokes.
pub fn plane(ground: i16, stroke: i16) -> [i16; bands::COEFFICIENTS_PER_COMPONENT] {
    let mut p = [ground; bands::COEFFICIENTS_PER_COMPONENT];
    rectangle(&mut p, MINUS_LEFT, MINUS_TOP, 10, 4, stroke);
    digit(&mut p, 15, &ZERO, stroke);
    rectangle(&mut p, 29, TOP + 24, 4, 4, stroke);
    digit(&mut p, 35, &SEVEN, stroke);
    digit(&mut p, 49, &FIVE, stroke);
    p
}
