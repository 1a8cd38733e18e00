// The band record: the ten bands of a 64 x 64 component in both layouts, as constant tables, the band of each place, and the check of
// positions and quantizers.
#![tactic(auto)]

ghost use Rattle.std.specs.Prelude.{true, false, ◌≡◌, ◌*◌, ◌^◌, ◌<◌};
ghost use Rattle.bands.specs.Bands.{layout, count_of, band_at, bottom_offset, bands_of};
ghost use Rattle.bands.specs.Positions.{row_in_domain, rows_in_domain};
ghost use Rattle.bands.specs.Tables.{BandTables, band_of_place, number_of_band, band_ends, PlaceTables};

pub mod span;
mod tables;

// Bands of a component.
pub const NUM_BANDS: usize = 10;

// The number that stands for no band where a number must be given, as in C.
pub const NO_BAND: u8 = 10;

// Coefficients of a component.
pub const COEFFICIENTS_PER_COMPONENT: usize = 4096;

// Coefficients of a tile, which has three components.
pub const COEFFICIENTS_PER_TILE: usize = 12288;

// The bytes of a tile's pixels.
pub const PIXEL_BYTES: usize = 16384;

// The highest position, and the highest quantizer.
pub const MAX_POSITION: u8 = 15;

// A band: its size, and the place of its first coefficient.
#[derive(Clone, Copy, Default)]
pub struct BandInfo {
    pub width: usize,
    pub height: usize,
    pub offset: usize,
}

// Reduce-extrapolate: HL1 LH1 HH1 HL2 LH2 HH2 HL3 LH3 HH3 LL3.
const EXTRAPOLATE: [BandInfo; 10] = [
    BandInfo {
        width: 31,
        height: 33,
        offset: 0,
    },
    BandInfo {
        width: 33,
        height: 31,
        offset: 1023,
    },
    BandInfo {
        width: 31,
        height: 31,
        offset: 2046,
    },
    BandInfo {
        width: 16,
        height: 17,
        offset: 3007,
    },
    BandInfo {
        width: 17,
        height: 16,
        offset: 3279,
    },
    BandInfo {
        width: 16,
        height: 16,
        offset: 3551,
    },
    BandInfo {
        width: 8,
        height: 9,
        offset: 3807,
    },
    BandInfo {
        width: 9,
        height: 8,
        offset: 3879,
    },
    BandInfo {
        width: 8,
        height: 8,
        offset: 3951,
    },
    BandInfo {
        width: 9,
        height: 9,
        offset: 4015,
    },
];

// Standard, in the same order.
const STANDARD: [BandInfo; 10] = [
    BandInfo {
        width: 32,
        height: 32,
        offset: 0,
    },
    BandInfo {
        width: 32,
        height: 32,
        offset: 1024,
    },
    BandInfo {
        width: 32,
        height: 32,
        offset: 2048,
    },
    BandInfo {
        width: 16,
        height: 16,
        offset: 3072,
    },
    BandInfo {
        width: 16,
        height: 16,
        offset: 3328,
    },
    BandInfo {
        width: 16,
        height: 16,
        offset: 3584,
    },
    BandInfo {
        width: 8,
        height: 8,
        offset: 3840,
    },
    BandInfo {
        width: 8,
        height: 8,
        offset: 3904,
    },
    BandInfo {
        width: 8,
        height: 8,
        offset: 3968,
    },
    BandInfo {
        width: 8,
        height: 8,
        offset: 4032,
    },
];

impl BandInfo {
    // The number of coefficients in the band.
    fn count(self) -> usize
        requires { self.width * self.height < 2 ^ 64 }
        ensures { result ≡ count_of self }
    {
        self.width * self.height
    }
}

// The reduce-extrapolate layout.
pub fn band_layout() -> [BandInfo; 10]
    ensures { result ≡ layout true }
{
    EXTRAPOLATE
}

// The standard layout.
pub fn standard_band_layout() -> [BandInfo; 10]
    ensures { result ≡ layout false }
{
    STANDARD
}

// The layout by the flag.
pub fn get_band_layout(use_reduce_extrapolate: bool) -> [BandInfo; 10]
    ensures { result ≡ layout use_reduce_extrapolate }
{
    if use_reduce_extrapolate {
        EXTRAPOLATE
    } else {
        STANDARD
    }
}

// One band; past the tenth, an empty one.
pub fn band(use_reduce_extrapolate: bool, band_idx: usize) -> BandInfo
    ensures { result ≡ band_at use_reduce_extrapolate band_idx }
{
    get_band_layout(use_reduce_extrapolate)
        .get(band_idx)
        .copied()
        .unwrap_or_default()
}

// The number of coefficients in one band; past the tenth, 0.
pub fn band_count(use_reduce_extrapolate: bool, band_idx: usize) -> usize
    ensures { result ≡ count_of (band_at use_reduce_extrapolate band_idx) }
{
    band(use_reduce_extrapolate, band_idx).count()
}

// The place of the bottom band, LL3.
pub fn ll3_offset(use_reduce_extrapolate: bool) -> usize
    ensures { result ≡ bottom_offset use_reduce_extrapolate }
{
    if use_reduce_extrapolate { 4015 } else { 4032 }
}

// Offsets are running sums, the counts sum to 4,096, LL3 starts at 4015 or 4032, and each place belongs to exactly one band.
pub fn band_tables()
    ensures { BandTables }
{}

// ---- places

// The table of a layout: the number of each place's band.
pub fn bands_of_places(use_reduce_extrapolate: bool) -> [u8; 4096]
    ensures { result ≡ bands_of use_reduce_extrapolate }
{
    if use_reduce_extrapolate {
        tables::EXTRAPOLATE
    } else {
        tables::STANDARD
    }
}

// The number of the band that a place belongs to, 0 to 9; a place past the 4,096 has none. Who asks for many places takes the table: the compiler
// builds a constant array at each use, so the test stands before it.
pub fn find_band(use_reduce_extrapolate: bool, place: usize) -> Option<u8>
    ensures { result ≡ number_of_band use_reduce_extrapolate place }
{
    if place >= COEFFICIENTS_PER_COMPONENT {
        return None;
    }
    bands_of_places(use_reduce_extrapolate).get(place).copied()
}

// The same as a number: `NO_BAND` for a place past the 4,096.
pub fn band_of_place(use_reduce_extrapolate: bool, place: usize) -> u8
    ensures { result ≡ band_of_place (layout use_reduce_extrapolate) place }
{
    find_band(use_reduce_extrapolate, place).unwrap_or(NO_BAND)
}

// Where each band of a layout ends.
pub fn band_ends(use_reduce_extrapolate: bool) -> [usize; 10]
    ensures { result ≡ band_ends use_reduce_extrapolate }
{
    if use_reduce_extrapolate {
        [1023, 2046, 3007, 3279, 3551, 3807, 3879, 3951, 4015, 4096]
    } else {
        [1024, 2048, 3072, 3328, 3584, 3840, 3904, 3968, 4032, 4096]
    }
}

// Each of the 8,192 entries is the number of the band whose offset and count enclose its place, and what each place has of its band it has by the
// table.
pub fn place_tables()
    ensures { PlaceTables }
{}

// ---- positions and quantizers

// Whether each is at most 15.
pub fn positions_in_domain(positions: &[u8]) -> bool
    ensures { result ≡ row_in_domain positions.now }
{
    positions.iter().all(|p| *p <= MAX_POSITION)
}

// A component's row of ten.
pub fn row_in_domain(row: [u8; 10]) -> bool
    ensures { result ≡ row_in_domain row }
{
    positions_in_domain(&row)
}

// A tile's three rows.
pub fn rows_in_domain(rows: [[u8; 10]; 3]) -> bool
    ensures { result ≡ rows_in_domain rows }
{
    rows.iter().all(|row| row_in_domain(*row))
}
