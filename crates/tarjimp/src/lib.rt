// The C ABI (include/tarjimp.h). Each function returns the number of a refusal (docs/SCOPE.md, "Refusals"), 0 where there is none. A slice is a
// pointer and then its length in elements, an array of a fixed size a pointer. What is lent to one call must not overlap.

#![tactic(auto)]

ghost use Rattle.std.specs.Prelude.{◌≡◌, length};
ghost use Rattle.bands.specs.Bands.{layout, bands_of};
ghost use Rattle.bands.specs.Tables.{band_of_place};
ghost use Rattle.progressive_encoder.specs.Encode.{floor_rule, symmetric_rule};
ghost use Rattle.color.specs.Color.{rgb};
ghost use Rattle.zero_signs.specs.ZeroSigns.{zero_signs_of};
ghost use Rattle.planes.specs.Planes.{three};
ghost use Rattle.tile.specs.Tile.{DecodesUpgrade};
ghost use Rattle.tarjimp.specs.Calls.{srl_decode_answer, srl_decode_state, srl_decode_out, SrlDecodes, srl_encode_answer, srl_encode_state, srl_encode_out, SrlEncodes, srl_finish_answer, srl_finish_out, SrlFinishes, DequantizesComponent, InvertsComponent, ReadsPass, WritesPass, tile_of, UpgradesTile, ReconstructsTile};

mod answers;
mod states;

use answer::Refusal;
use components::Streams;
use progressive_decoder::MissingBits;

// The count of missing bits.
fn srl_decode(
    src: &[u8],
    state: &mut [u64; 5],
    out: &mut [i16],
    num_values: usize,
    num_bits: u8,
) -> Result<u64, Refusal>
    ensures answer { result ≡ srl_decode_answer src.now state.old (length out.old) num_values num_bits }
    ensures state { state.new ≡ srl_decode_state src.now state.old (length out.old) num_values num_bits }
    ensures out { out.new ≡ srl_decode_out src.now state.old out.old num_values num_bits }
{
    let mut reader = states::reader_of(*state).ok_or(Refusal::ImpossibleState)?;
    let decoded = srl_decoder::decode(src, &mut reader, out, num_values, num_bits)?;
    *state = states::reader_numbers(reader);
    Ok(decoded.missing)
}

// The count of bytes.
fn srl_encode(
    values: &[i16],
    state: &mut [u64; 4],
    out: &mut [u8],
    num_bits: u8,
) -> Result<usize, Refusal>
    ensures answer { result ≡ srl_encode_answer values.now state.old (length out.old) num_bits }
    ensures state { state.new ≡ srl_encode_state values.now state.old (length out.old) num_bits }
    ensures out { out.new ≡ srl_encode_out values.now state.old out.old num_bits }
{
    let mut writer = states::writer_of(*state).ok_or(Refusal::ImpossibleState)?;
    let count = srl_encoder::encode(values, &mut writer, out, num_bits)?;
    *state = states::writer_numbers(writer);
    Ok(count)
}

// The count of bytes.
fn srl_finish(state: &[u64; 4], out: &mut [u8]) -> Result<usize, Refusal>
    ensures answer { result ≡ srl_finish_answer state.now (length out.old) }
    ensures out { out.new ≡ srl_finish_out state.now out.old }
{
    let writer = states::writer_of(*state).ok_or(Refusal::ImpossibleState)?;
    srl_encoder::finish(&writer, out)
}

// Reads `num_values` values of an SRL stream from a state on. The state is five numbers: byte, bit, kp, zero_run_remaining, nonzero_pending. `missing`
// has the count of bits from past the stream's end then, 0 after a refusal.
#[unsafe(no_mangle)]
pub extern "C" fn tarjimp_srl_decode(
    src: &[u8],
    state: &mut [u64; 5],
    out: &mut [i16],
    num_values: usize,
    num_bits: u8,
    missing: &mut u64,
) -> u8
    ensures { SrlDecodes src.now state.old out.old num_values num_bits
        result state.new out.new missing.new }
{
    answers::hand_on(
        srl_decode(src, state, out, num_values, num_bits),
        missing,
        0,
    )
}

// Writes values to an SRL stream from a state on: the whole bytes that they complete, whose count is in `written` then. The state is four
// numbers: kp, pending_zeros, current, bit_count.
#[unsafe(no_mangle)]
pub extern "C" fn tarjimp_srl_encode(
    values: &[i16],
    state: &mut [u64; 4],
    out: &mut [u8],
    num_bits: u8,
    written: &mut usize,
) -> u8
    ensures { SrlEncodes values.now state.old out.old num_bits
        result state.new out.new written.new }
{
    answers::hand_on(srl_encode(values, state, out, num_bits), written, 0)
}

// Writes the end of an SRL stream, whose count of bytes is in `written` then.
#[unsafe(no_mangle)]
pub extern "C" fn tarjimp_srl_finish(state: &[u64; 4], out: &mut [u8], written: &mut usize) -> u8
    ensures { SrlFinishes state.now out.old result out.new written.new }
{
    answers::hand_on(srl_finish(state, out), written, 0)
}
// Reads a pass: the coefficients of each band go from its position in `prev` to that in `curr`. `missing` has the counts of bits from past the end of
// the SRL stream and of the raw stream then, 0 and 0 after a refusal.
#[unsafe(no_mangle)]
pub extern "C" fn tarjimp_decode_upgrade_pass(
    srl_data: &[u8],
    raw_data: &[u8],
    prev: &[u8; 10],
    curr: &[u8; 10],
    use_reduce_extrapolate: bool,
    coefficients: &mut [i16],
    sign: &mut [i8],
    missing: &mut [u32; 2],
) -> u8
    ensures { ReadsPass srl_data.now raw_data.now prev.now curr.now use_reduce_extrapolate
        coefficients.old sign.old result coefficients.new sign.new missing.new }
{
    let answer = progressive_decoder::decode_upgrade_pass(
        srl_data,
        raw_data,
        *prev,
        *curr,
        use_reduce_extrapolate,
        coefficients,
        sign,
    );
    answers::hand_on_missing(answer, missing)
}

// Dequantizes a component in place.
#[unsafe(no_mangle)]
pub extern "C" fn tarjimp_dequantize_component(
    coefficients: &mut [i16],
    quant: &[u8; 10],
    use_reduce_extrapolate: bool,
) -> u8
    ensures { DequantizesComponent use_reduce_extrapolate quant.now coefficients.old result coefficients.new }
{
    answer::number_of_answer(dequantizer::dequantize_component_ccq(
        coefficients,
        *quant,
        use_reduce_extrapolate,
    ))
}

// Writes a pass by the source's rule. `written` has the counts of bytes of the SRL stream and of the raw stream then, 0 and 0 after a refusal.
#[unsafe(no_mangle)]
pub extern "C" fn tarjimp_encode_upgrade_pass(
    coefficients: &[i16],
    prev_coefficients: &[i16],
    prev: &[u8; 10],
    curr: &[u8; 10],
    sign: &[i8],
    use_reduce_extrapolate: bool,
    srl_out: &mut [u8],
    raw_out: &mut [u8],
    written: &mut [usize; 2],
) -> u8
    ensures { WritesPass floor_rule coefficients.now prev_coefficients.now prev.now curr.now sign.now
        use_reduce_extrapolate srl_out.old raw_out.old
        result written.new srl_out.new raw_out.new }
{
    let answer = progressive_encoder::encode_upgrade_pass(
        coefficients,
        prev_coefficients,
        *prev,
        *curr,
        sign,
        use_reduce_extrapolate,
        srl_out,
        raw_out,
    );
    answers::hand_on_written(answer, written)
}

// Writes a pass by the symmetric rule, with the same parameters.
#[unsafe(no_mangle)]
pub extern "C" fn tarjimp_encode_upgrade_pass_symmetric(
    coefficients: &[i16],
    prev_coefficients: &[i16],
    prev: &[u8; 10],
    curr: &[u8; 10],
    sign: &[i8],
    use_reduce_extrapolate: bool,
    srl_out: &mut [u8],
    raw_out: &mut [u8],
    written: &mut [usize; 2],
) -> u8
    ensures { WritesPass symmetric_rule coefficients.now prev_coefficients.now prev.now curr.now sign.now
        use_reduce_extrapolate srl_out.old raw_out.old
        result written.new srl_out.new raw_out.new }
{
    let answer = progressive_encoder::encode_upgrade_pass_symmetric(
        coefficients,
        prev_coefficients,
        *prev,
        *curr,
        sign,
        use_reduce_extrapolate,
        srl_out,
        raw_out,
    );
    answers::hand_on_written(answer, written)
}

// The inverse wavelet of a component, in place, with a scratch.
#[unsafe(no_mangle)]
pub extern "C" fn tarjimp_dwt_extrapolate_decode(buffer: &mut [i16], temp: &mut [i16]) -> u8
    ensures { InvertsComponent buffer.old temp.old result buffer.new temp.new }
{
    answer::number_of_answer(dwt_extrapolate::decode(buffer, temp))
}

// The three bytes of a pixel.
#[unsafe(no_mangle)]
pub extern "C" fn tarjimp_ycbcr_to_rgb(y: i16, cb: i16, cr: i16, out: &mut [u8; 3])
    ensures { out.new ≡ rgb y cb cr }
{
    *out = color::ycbcr_to_rgb(y, cb, cr);
}

// A pass over the parts of a tile, where they lie: the bits that were missing.
fn upgrade_tile(
    coefficients: &mut [i16; bands::COEFFICIENTS_PER_TILE],
    sign: &mut [i8; bands::COEFFICIENTS_PER_TILE],
    zero_signs: &mut [u16; 30],
    prog_quant: &mut [u8; 30],
    base_quant: &[u8; 30],
    use_reduce_extrapolate: bool,
    pass: &mut u16,
    quality: &mut u8,
    prog_quants: &[[u8; 10]; 3],
    new_quality: u8,
    y: Streams<'_>,
    cb: Streams<'_>,
    cr: Streams<'_>,
) -> Result<MissingBits, Refusal>
    ensures { DecodesUpgrade
        (tile_of coefficients.old sign.old zero_signs.old prog_quant.old
        base_quant.now use_reduce_extrapolate pass.old quality.old)
        (three y.entry.srl.now cb.entry.srl.now cr.entry.srl.now)
        (three y.entry.raw.now cb.entry.raw.now cr.entry.raw.now)
        prog_quants.now new_quality
        result
        (tile_of coefficients.new sign.new zero_signs.new prog_quant.new
        base_quant.now use_reduce_extrapolate pass.new quality.new) }
{
    let e = use_reduce_extrapolate;
    tile::check_upgrade(*prog_quants, *prog_quant, *base_quant, sign, zero_signs, e)?;
    let missing = tile::upgrade_in_place(
        y,
        cb,
        cr,
        *prog_quants,
        e,
        coefficients,
        sign,
        zero_signs,
        prog_quant,
        pass,
    );
    *quality = new_quality;
    Ok(missing)
}

// A pass over the three components of a tile, in place: `TileState::decode_upgrade` on the fields that it reads and changes. `missing` is as above,
// with the sums over the three components.
#[unsafe(no_mangle)]
pub extern "C" fn tarjimp_tile_decode_upgrade(
    coefficients: &mut [i16; bands::COEFFICIENTS_PER_TILE],
    sign: &mut [i8; bands::COEFFICIENTS_PER_TILE],
    zero_signs: &mut [u16; 30],
    prog_quant: &mut [u8; 30],
    base_quant: &[u8; 30],
    use_reduce_extrapolate: bool,
    pass: &mut u16,
    quality: &mut u8,
    prog_quants: &[[u8; 10]; 3],
    new_quality: u8,
    y_srl: &[u8],
    y_raw: &[u8],
    cb_srl: &[u8],
    cb_raw: &[u8],
    cr_srl: &[u8],
    cr_raw: &[u8],
    missing: &mut [u32; 2],
) -> u8
    ensures { UpgradesTile
        (tile_of coefficients.old sign.old zero_signs.old prog_quant.old
        base_quant.now use_reduce_extrapolate pass.old quality.old)
        (three y_srl.now cb_srl.now cr_srl.now)
        (three y_raw.now cb_raw.now cr_raw.now)
        prog_quants.now new_quality
        result
        (tile_of coefficients.new sign.new zero_signs.new prog_quant.new
        base_quant.now use_reduce_extrapolate pass.new quality.new)
        missing.new }
{
    let answer = upgrade_tile(
        coefficients,
        sign,
        zero_signs,
        prog_quant,
        base_quant,
        use_reduce_extrapolate,
        pass,
        quality,
        prog_quants,
        new_quality,
        Streams {
            srl: y_srl,
            raw: y_raw,
        },
        Streams {
            srl: cb_srl,
            raw: cb_raw,
        },
        Streams {
            srl: cr_srl,
            raw: cr_raw,
        },
    );
    answers::hand_on_missing(answer, missing)
}

// The pixels of a tile, of the fields that they depend on, and of the signs with their numbers: where these are wrong, no pixels are given.
#[unsafe(no_mangle)]
pub extern "C" fn tarjimp_tile_reconstruct_to_rgba(
    coefficients: &[i16; bands::COEFFICIENTS_PER_TILE],
    sign: &[i8; bands::COEFFICIENTS_PER_TILE],
    zero_signs: &[u16; 30],
    prog_quant: &[u8; 30],
    base_quant: &[u8; 30],
    use_reduce_extrapolate: bool,
    pixels: &mut [u8],
) -> u8
    ensures { ReconstructsTile coefficients.now sign.now zero_signs.now prog_quant.now
        base_quant.now use_reduce_extrapolate pixels.old result pixels.new }
{
    if !zero_signs::are_right(zero_signs, sign, use_reduce_extrapolate) {
        return Refusal::ImpossibleState.number();
    }
    answer::number_of_answer(pixels::reconstruct_to_rgba(
        *coefficients,
        *prog_quant,
        *base_quant,
        use_reduce_extrapolate,
        pixels,
    ))
}

// The numbers of zero signs of a tile, by its signs and its layout: those that its functions ask for.
#[unsafe(no_mangle)]
pub extern "C" fn tarjimp_tile_zero_signs(
    sign: &[i8; bands::COEFFICIENTS_PER_TILE],
    use_reduce_extrapolate: bool,
    zero_signs: &mut [u16; 30],
)
    ensures { zero_signs.new ≡ zero_signs_of use_reduce_extrapolate sign.now }
{
    *zero_signs = zero_signs::count(sign, use_reduce_extrapolate);
}

// The number of the band that a place of a component belongs to, 0 to 9; 10 for a place past the 4,096.
#[unsafe(no_mangle)]
pub extern "C" fn tarjimp_band_of_place(use_reduce_extrapolate: bool, place: usize) -> u8
    ensures { result ≡ band_of_place (layout use_reduce_extrapolate) place }
{
    bands::band_of_place(use_reduce_extrapolate, place)
}

// The number of the band of each place of a component.
#[unsafe(no_mangle)]
pub extern "C" fn tarjimp_bands_of_places(
    use_reduce_extrapolate: bool,
    bands: &mut [u8; bands::COEFFICIENTS_PER_COMPONENT],
)
    ensures { bands.new ≡ bands_of use_reduce_extrapolate }
{
    *bands = bands::bands_of_places(use_reduce_extrapolate);
}
