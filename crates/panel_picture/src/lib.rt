// The picture of `panel`: a panel drawn in luma and chroma, its coefficients, what a first cut leaves of them, and what is measured of a
// reconstructed picture. A plane has the 64 x 64 values of one component, row by row.
#![tactic(auto)]

pub mod cut;
pub mod drawing;
pub mod forward;
pub mod measure;

ghost use Rattle.std.specs.Prelude.{◌≡◌, length};

// The panel's coefficients, uncut, of all three components. The ground is light and slightly yellow, the strokes are dark.
pub fn panel(into: &mut [i16])
    requires { length into.old ≡ 12288 }
{
    let y = forward::coefficients(drawing::plane(90, -90));
    let cb = forward::coefficients(drawing::plane(-10, 4));
    let cr = forward::coefficients(drawing::plane(6, -2));
    planes::load(&y, &cb, &cr, into);
}
