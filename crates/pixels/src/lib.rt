// From the coefficients of a tile's three components to pixels, on flat arrays: the work of `TileState::reconstruct_to_rgba`.

#![tactic(auto)]

ghost use Rattle.std.specs.Prelude.{◌≡◌, ◌++◌, ◌<◌, ◌≤◌, length, drop};
ghost use Rattle.planes.specs.Planes.{component, joined};
ghost use Rattle.planes.specs.Inner.{with_component};
ghost use Rattle.color.specs.Color.{picture};
ghost use Rattle.pixels.specs.Pixels.{samples, samples_of, rgba, WritesPixels};

// The samples of a component, in its place.
fn component_samples(coefficients: &mut [i16], quant: [u8; 10], temp: &mut [i16])
    requires { (length coefficients.old ≡ 4096) × (length temp.old ≡ 4096) }
    ensures { coefficients.new ≡ samples quant coefficients.old }
{
    dequantizer::dequantize_bands(coefficients, quant, true);
    dwt_extrapolate::decode_blocks(coefficients, temp);
}

// Those of one of three components, by its number.
fn samples_at(k: usize, quants: [u8; 30], coefficients: &mut [i16], temp: &mut [i16])
    requires { (k < 3) × (length coefficients.old ≡ 12288) × (length temp.old ≡ 4096) }
    ensures { coefficients.new ≡ with_component k (samples_of quants coefficients.old k) coefficients.old }
{
    let quant = planes::row_at(quants, k * 10);
    let at = k * bands::COEFFICIENTS_PER_COMPONENT;
    let end = at + bands::COEFFICIENTS_PER_COMPONENT;
    component_samples(&mut coefficients[at..end], quant, temp);
}

// All three.
fn all_samples(quants: [u8; 30], coefficients: &mut [i16], temp: &mut [i16])
    requires { (length coefficients.old ≡ 12288) × (length temp.old ≡ 4096) }
    ensures { coefficients.new ≡ joined (samples_of quants coefficients.old) }
{
    for k in 0..3 {
        samples_at(k, quants, coefficients, temp);
    }
}

// The pixels of three components of samples.
fn write_samples(samples: &[i16], pixels: &mut [u8])
    requires { (length samples.now ≡ 12288) × (16384 ≤ length pixels.old) }
    ensures { pixels.new
        ≡ picture (component 0 samples.now) (component 1 samples.now) (component 2 samples.now)
        ++ drop 16384 pixels.old }
{
    color::write_rgba(
        &samples[0..4096],
        &samples[4096..8192],
        &samples[8192..12288],
        pixels,
    );
}

// The pixels of three components of coefficients.
fn write_pixels(
    coefficients: [i16; bands::COEFFICIENTS_PER_TILE],
    quants: [u8; 30],
    pixels: &mut [u8],
)
    requires { 16384 ≤ length pixels.old }
    ensures { pixels.new ≡ rgba quants coefficients ++ drop 16384 pixels.old }
{
    let mut samples = coefficients;
    let mut temp: [i16; bands::COEFFICIENTS_PER_COMPONENT] = [0; bands::COEFFICIENTS_PER_COMPONENT];
    all_samples(quants, &mut samples, &mut temp);
    write_samples(&samples, pixels);
}

// The pixels of three components, with the positions and quantizers of their tile.
pub fn reconstruct_to_rgba(
    coefficients: [i16; bands::COEFFICIENTS_PER_TILE],
    positions: [u8; 30],
    quants: [u8; 30],
    use_reduce_extrapolate: bool,
    pixels: &mut [u8],
) -> Result<(), answer::Refusal>
    ensures { WritesPixels coefficients positions quants use_reduce_extrapolate pixels.old result pixels.new }
{
    if pixels.len() < bands::PIXEL_BYTES {
        return Err(answer::Refusal::SliceTooShort);
    }
    if !bands::positions_in_domain(&positions) || !bands::positions_in_domain(&quants) {
        return Err(answer::Refusal::OutOfDomain);
    }
    if !use_reduce_extrapolate {
        return Err(answer::Refusal::StandardLayout);
    }
    write_pixels(coefficients, quants, pixels);
    Ok(())
}
