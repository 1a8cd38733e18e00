// A tile of three components: made fresh, loaded, upgraded pass by pass, and its pixels. A port of progressive.rs's `TileState`.
// A refusal (docs/SCOPE.md, "Refusals") alters neither the tile nor the pixels.

#![tactic(auto)]

ghost use Rattle.std.specs.Prelude.{◌≡◌, true, ◌&&◌, ◌≤◌, length};
ghost use Rattle.bands.specs.Positions.{row_in_domain, rows_in_domain};
ghost use Rattle.planes.specs.Planes.{three};
ghost use Rattle.answer.specs.Answers.{first_of, answered, long_enough};
ghost use Rattle.tile.specs.Tile.{fresh, loaded, load, next_pass, numbers_refusal_by, rows_refusal, DecodesUpgrade, Reconstructs};
ghost use Rattle.tile.specs.Refused.{TileRefusals};
ghost use Rattle.tile.specs.Inner.{fields, PassedInPlace};

use answer::Refusal;
use components::Streams;
use progressive_decoder::MissingBits;

// A tile: 64 x 64 pixels, with what has arrived of them. Arrays are flat: three components (Y, Cb, Cr) of 4,096, three rows of ten.
#[repr(C)]
#[derive(Clone, Copy)]
pub struct TileState {
    pub coefficients: [i16; bands::COEFFICIENTS_PER_TILE],
    pub sign: [i8; bands::COEFFICIENTS_PER_TILE],
    // How many signs of each band of each component are 0.
    pub zero_signs: [u16; 30],
    pub prog_quant: [u8; 30],
    pub quant_idx: [u8; 3],
    pub base_quant: [u8; 30],
    pub pass: u16,
    pub is_difference: bool,
    pub quality: u8,
    pub use_reduce_extrapolate: bool,
}

// A component to load: its coefficients and their signs.
#[derive(Clone, Copy)]
pub struct Component<'a> {
    pub coefficients: &'a [i16],
    pub sign: &'a [i8],
}

impl Component<'_> {
    // Whether both slices have a component's elements.
    fn is_whole(self) -> bool
        ensures { result ≡ (long_enough self.entry.coefficients.now && long_enough self.entry.sign.now) }
    {
        self.coefficients.len() >= bands::COEFFICIENTS_PER_COMPONENT
            && self.sign.len() >= bands::COEFFICIENTS_PER_COMPONENT
    }
}

// The number of a tile's next pass.
fn next_pass(pass: u16) -> u16
    ensures { result ≡ next_pass pass }
{
    pass.saturating_add(1)
}

// Whether no position or quantizer, given or in the tile, is above 15.
fn in_domain(rows: [[u8; 10]; 3], positions: [u8; 30], quants: [u8; 30]) -> bool
    ensures { result ≡ (rows_in_domain rows && (row_in_domain positions && row_in_domain quants)) }
{
    bands::rows_in_domain(rows)
        && bands::positions_in_domain(&positions)
        && bands::positions_in_domain(&quants)
}

// Refuses a tile whose numbers of zero signs are not right.
fn check_numbers(
    numbers: &[u16; 30],
    sign: &[i8; bands::COEFFICIENTS_PER_TILE],
    use_reduce_extrapolate: bool,
) -> Result<(), Refusal>
    ensures { result ≡ answered (numbers_refusal_by use_reduce_extrapolate sign.now numbers.now) tt }
{
    if zero_signs::are_right(numbers, sign, use_reduce_extrapolate) {
        Ok(())
    } else {
        Err(Refusal::ImpossibleState)
    }
}

// Whether a pass over a tile is refused: by its signs and their numbers, and by the positions and quantizers, given or in the tile. A part
// of the tile's call and of the C function.
pub fn check_upgrade(
    rows: [[u8; 10]; 3],
    positions: [u8; 30],
    quants: [u8; 30],
    sign: &[i8; bands::COEFFICIENTS_PER_TILE],
    numbers: &[u16; 30],
    use_reduce_extrapolate: bool,
) -> Result<(), Refusal>
    ensures { result ≡ answered (first_of
        (numbers_refusal_by use_reduce_extrapolate sign.now numbers.now)
        (rows_refusal positions quants rows)) tt }
{
    check_numbers(numbers, sign, use_reduce_extrapolate)?;
    if !in_domain(rows, positions, quants) {
        return Err(Refusal::OutOfDomain);
    }
    Ok(())
}

// A pass over the fields of a tile that it changes, where they lie, and the bits that were missing; the caller stores the quality. A part of the
// tile's call and of the C function: both have seen that no position is above 15.
pub fn upgrade_in_place(
    y: Streams<'_>,
    cb: Streams<'_>,
    cr: Streams<'_>,
    rows: [[u8; 10]; 3],
    use_reduce_extrapolate: bool,
    coefficients: &mut [i16; bands::COEFFICIENTS_PER_TILE],
    sign: &mut [i8; bands::COEFFICIENTS_PER_TILE],
    numbers: &mut [u16; 30],
    prog_quant: &mut [u8; 30],
    pass: &mut u16,
) -> MissingBits
    requires { row_in_domain prog_quant.old ≡ true }
    ensures { PassedInPlace use_reduce_extrapolate rows
        (three y.entry.srl.now cb.entry.srl.now cr.entry.srl.now)
        (three y.entry.raw.now cb.entry.raw.now cr.entry.raw.now)
        (fields coefficients.old sign.old numbers.old prog_quant.old pass.old)
        (fields coefficients.new sign.new numbers.new prog_quant.new pass.new)
        result }
{
    let prev = *prog_quant;
    let number = *pass;
    let missing = components::upgrade_components(
        y,
        cb,
        cr,
        prev,
        rows,
        use_reduce_extrapolate,
        coefficients,
        sign,
    );
    *numbers = zero_signs::count(sign, use_reduce_extrapolate);
    *prog_quant = planes::flat_rows(rows);
    *pass = next_pass(number);
    missing
}

impl TileState {
    // All bits of every band have arrived.
    pub const LOSSLESS: [u8; 10] = [0; 10];

    // The fresh tile.
    pub fn new() -> TileState
        ensures { result ≡ fresh }
    {
        let sign = [0; bands::COEFFICIENTS_PER_TILE];
        Self {
            coefficients: [0; bands::COEFFICIENTS_PER_TILE],
            sign,
            zero_signs: zero_signs::count(&sign, false),
            prog_quant: planes::flat_rows([Self::LOSSLESS; 3]),
            quant_idx: [0; 3],
            base_quant: [6; 30],
            pass: 0,
            is_difference: false,
            quality: 0,
            use_reduce_extrapolate: false,
        }
    }

    // A tile with the first 4,096 of each slice.
    fn loaded(
        y: Component<'_>,
        cb: Component<'_>,
        cr: Component<'_>,
        prog_quants: [[u8; 10]; 3],
        base_quants: [[u8; 10]; 3],
        use_reduce_extrapolate: bool,
    ) -> TileState
        requires { (4096 ≤ length y.coefficients.now) × (4096 ≤ length cb.coefficients.now) × (4096 ≤ length cr.coefficients.now)
            × (4096 ≤ length y.sign.now) × (4096 ≤ length cb.sign.now) × (4096 ≤ length cr.sign.now) }
        ensures { result ≡ loaded
            (three y.entry.coefficients.now cb.entry.coefficients.now cr.entry.coefficients.now)
            (three y.entry.sign.now cb.entry.sign.now cr.entry.sign.now)
            prog_quants base_quants use_reduce_extrapolate }
    {
        let mut coefficients = [0; bands::COEFFICIENTS_PER_TILE];
        let mut sign = [0; bands::COEFFICIENTS_PER_TILE];
        planes::load(
            y.coefficients,
            cb.coefficients,
            cr.coefficients,
            &mut coefficients,
        );
        planes::load(y.sign, cb.sign, cr.sign, &mut sign);
        Self {
            coefficients,
            sign,
            zero_signs: zero_signs::count(&sign, use_reduce_extrapolate),
            prog_quant: planes::flat_rows(prog_quants),
            quant_idx: [0; 3],
            base_quant: planes::flat_rows(base_quants),
            pass: 1,
            is_difference: false,
            quality: 0,
            use_reduce_extrapolate,
        }
    }

    // A tile after its first pass: the first 4,096 of each slice, with rows of positions and of base quantizers.
    pub fn load(
        y: Component<'_>,
        cb: Component<'_>,
        cr: Component<'_>,
        prog_quants: [[u8; 10]; 3],
        base_quants: [[u8; 10]; 3],
        use_reduce_extrapolate: bool,
    ) -> Result<TileState, Refusal>
        ensures { result ≡ load
            (three y.entry.coefficients.now cb.entry.coefficients.now cr.entry.coefficients.now)
            (three y.entry.sign.now cb.entry.sign.now cr.entry.sign.now)
            prog_quants base_quants use_reduce_extrapolate }
    {
        if !(y.is_whole() && cb.is_whole() && cr.is_whole()) {
            return Err(Refusal::SliceTooShort);
        }
        if !(bands::rows_in_domain(prog_quants) && bands::rows_in_domain(base_quants)) {
            return Err(Refusal::OutOfDomain);
        }
        Ok(Self::loaded(y, cb, cr, prog_quants, base_quants, use_reduce_extrapolate))
    }

    // One pass over the three components, from the tile's positions to those given, with two streams for each; the bits that were missing in all
    // three components.
    pub fn decode_upgrade(
        &mut self,
        y: Streams<'_>,
        cb: Streams<'_>,
        cr: Streams<'_>,
        prog_quants: [[u8; 10]; 3],
        quality: u8,
    ) -> Result<MissingBits, Refusal>
        ensures { DecodesUpgrade self.old
            (three y.entry.srl.now cb.entry.srl.now cr.entry.srl.now)
            (three y.entry.raw.now cb.entry.raw.now cr.entry.raw.now)
            prog_quants quality result self.new }
    {
        check_upgrade(
            prog_quants,
            self.prog_quant,
            self.base_quant,
            &self.sign,
            &self.zero_signs,
            self.use_reduce_extrapolate,
        )?;
        let missing = upgrade_in_place(
            y,
            cb,
            cr,
            prog_quants,
            self.use_reduce_extrapolate,
            &mut self.coefficients,
            &mut self.sign,
            &mut self.zero_signs,
            &mut self.prog_quant,
            &mut self.pass,
        );
        self.quality = quality;
        Ok(missing)
    }

    // The tile's pixels, row by row, four bytes each: red, green, blue and 255.
    pub fn reconstruct_to_rgba(&self, pixels: &mut [u8]) -> Result<(), Refusal>
        ensures { Reconstructs self.now pixels.old result pixels.new }
    {
        check_numbers(&self.zero_signs, &self.sign, self.use_reduce_extrapolate)?;
        pixels::reconstruct_to_rgba(
            self.coefficients,
            self.prog_quant,
            self.base_quant,
            self.use_reduce_extrapolate,
            pixels,
        )
    }
}

// A refused call gives the refusal's number, and leaves the tile or the pixels as they were; a refused load stands for the fresh tile.
pub fn refusals()
    ensures { TileRefusals }
{}
