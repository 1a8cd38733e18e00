// The positions that a pass goes from and to.
ghost use Rattle.std.specs.Prelude.{◌≡◌, ◌&&◌};
ghost use Rattle.bands.specs.Positions.{row_in_domain};

// Whether two rows of positions are in the domain.
pub fn rows_ok(prev: [u8; 10], curr: [u8; 10]) -> bool
    ensures { result ≡ (row_in_domain prev && row_in_domain curr) }
{
    bands::row_in_domain(prev) && bands::row_in_domain(curr)
}
