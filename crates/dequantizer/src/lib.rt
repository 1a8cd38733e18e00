// Dequantizing: each band's coefficients by its quantizer, a part of progressive.rs. `progressive` hands it on under the source's name.
#![tactic(auto)]

ghost use Rattle.std.specs.Prelude.{◌≡◌, ◌≤◌, length, replicate};
ghost use Rattle.dequantizer.specs.Dequantize.{dequantized, dequantized_all, quantizers, Dequantizes};

// A coefficient with the quantizer q.
fn dequantize_value(c: i16, q: u8) -> i16
    ensures { result ≡ dequantized q c }
{
    if 6 < q {
        return fixed::shift_left_clamp(c, q - 6);
    }
    if q < 6 {
        return fixed::round_shift_right(c, 6 - q);
    }
    c
}

// A band with the quantizer q. The compiler makes a loop for each way of `dequantize_value`.
fn dequantize_band(coefficients: &mut [i16], q: u8)
    ensures { coefficients.new ≡ dequantized_all (replicate (length coefficients.old) q) coefficients.old }
{
    for c in coefficients.iter_mut() {
        *c = dequantize_value(*c, q);
    }
}

// The ten bands.
pub fn dequantize_bands(coefficients: &mut [i16], quant: [u8; 10], use_reduce_extrapolate: bool)
    requires { 4096 ≤ length coefficients.old }
    ensures { coefficients.new ≡ dequantized_all (quantizers use_reduce_extrapolate quant) coefficients.old }
{
    for b in 0..bands::NUM_BANDS {
        let span = bands::span::band_span(use_reduce_extrapolate, b);
        dequantize_band(&mut coefficients[span.from..span.to], quant[b]);
    }
}

// Dequantizes a component in place.
pub fn dequantize_component_ccq(
    coefficients: &mut [i16],
    quant: [u8; 10],
    use_reduce_extrapolate: bool,
) -> Result<(), answer::Refusal>
    ensures { Dequantizes use_reduce_extrapolate quant coefficients.old result coefficients.new }
{
    if coefficients.len() < bands::COEFFICIENTS_PER_COMPONENT {
        return Err(answer::Refusal::SliceTooShort);
    }
    if !bands::row_in_domain(quant) {
        return Err(answer::Refusal::OutOfDomain);
    }
    dequantize_bands(coefficients, quant, use_reduce_extrapolate);
    Ok(())
}
