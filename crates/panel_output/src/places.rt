// The image of the places of a component, coloured by band: both layouts side by side, each with 64 places a row in the order in which they lie
// in memory, and a place as 4 x 4 pixels.
ghost use Rattle.std.specs.Prelude.{◌≡◌, ◌+◌, ◌≤◌, ◌<◌, length};

use crate::{files, images, report};
use panel_png::writer::Png;
use std::io;
use std::io::Write;
use std::rt::Files;

// The red, green and blue of a band, by its number; white for any other number.
fn colour(band: u8) -> [u8; 3] {
    match band {
        0 => [214, 39, 40],
        1 => [44, 160, 44],
        2 => [31, 90, 200],
        3 => [255, 127, 14],
        4 => [148, 60, 189],
        5 => [255, 221, 51],
        6 => [64, 224, 240],
        7 => [255, 150, 210],
        8 => [120, 72, 40],
        9 => [0, 0, 0],
        _ => [255, 255, 255],
    }
}

// Says which colour a band has, and where the image is.
pub fn legend(rt: &impl Print, folder: &[u8]) -> io::Result<()> {
    print!(rt;
        "\nbands: HL1 red, LH1 green, HH1 blue, HL2 orange, LH2 purple, HH2 yellow, HL3 cyan, LH3 pink, HH3 brown, LL3 black\nThe 4096 places of a component by band, 64 a row, reduce-extrapolate left and standard right: "
    )?;
    report::text(rt, folder)?;
    println!(rt; "/bands.png")
}

// Writes the colours of places, by their bands.
fn places(bands: &[u8], out: &mut [u8]) {
    let (colours, _) = out.as_chunks_mut::<3>();
    for (band, place) in bands.iter().zip(colours.iter_mut()) {
        *place = colour(*band);
    }
}

// Writes the colours of a row of 64 places, each four times.
fn enlarged(row: &[u8], line: &mut [u8]) {
    let mut once = [0; 192];
    let mut twice = [0; 384];
    places(row, &mut once);
    images::double(&once, &mut twice);
    images::double(&twice, line);
}

// Writes a line of the image: white in the margins of eight pixels, and places of both layouts.
fn image_line<W: Write + Drop>(
    png: Png<W>,
    left: &[u8],
    right: &[u8],
    y: usize,
) -> io::Result<Png<W>>
    requires { (y < 272) × (length left.now ≡ 4096) × (length right.now ≡ 4096) }
{
    let mut line = [255; 1609];
    line[0] = 0;
    if y >= 8 && y < 264 {
        let from = 64 * ((y - 8) / 4);
        enlarged(&left[from..from + 64], &mut line[25..793]);
        enlarged(&right[from..from + 64], &mut line[817..1585]);
    }
    png.row(&line, y == 271)
}

fn image_lines<W: Write + Drop>(png: Png<W>, left: &[u8], right: &[u8]) -> io::Result<Png<W>>
    requires { (length left.now ≡ 4096) × (length right.now ≡ 4096) }
{
    let mut image = png;
    for y in 0..272 {
        image = image_line(image, left, right, y)?;
    }
    Ok(image)
}

// Writes the image by the bands of both layouts, and hands back what it was written to.
fn image<W: Write + Drop>(out: W, left: &[u8], right: &[u8]) -> io::Result<W>
    requires { (length left.now ≡ 4096) × (length right.now ≡ 4096) }
{
    image_lines(Png::begin(out, 536, 272)?, left, right)?.end()
}

// Writes the image; whether it is there now.
pub fn save<R: Files + Eprint>(rt: &R, folder: &[u8], name: &[u8]) -> io::Result<bool>
    requires { (length folder.now ≤ 3072) × (length name.now ≤ 64) }
{
    let extrapolate = bands::bands_of_places(true);
    let standard = bands::bands_of_places(false);
    files::save(rt, folder, name, |file| {
        image(file, &extrapolate, &standard)
    })
}
