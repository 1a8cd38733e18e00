// Where a band lies in a component.
ghost use Rattle.std.specs.Prelude.{◌≡◌, ◌+◌, ◌≤◌};
ghost use Rattle.bands.specs.Bands.{count_of, band_at};

// The places of a band: from `from`, up to but not including `to`.
#[derive(Clone, Copy)]
pub struct Span {
    pub from: usize,
    pub to: usize,
}

// The places of the band numbered `b`; past the tenth there are none.
pub fn band_span(use_reduce_extrapolate: bool, b: usize) -> Span
    ensures { (result.from ≡ (band_at use_reduce_extrapolate b).offset)
        × (result.to ≡ result.from + count_of (band_at use_reduce_extrapolate b))
        × (result.to ≤ 4096) }
{
    let info = crate::band(use_reduce_extrapolate, b);
    let from = info.offset;
    Span {
        from,
        to: from + info.width * info.height,
    }
}
