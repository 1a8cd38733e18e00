// The images: one stage, enlarged by four, and all stages side by side, enlarged by two. A picture is 64 x 64 pixels of four bytes; a gallery is
// eight pictures one after another.
ghost use Rattle.std.specs.Prelude.{◌≡◌, ◌+◌, ◌*◌, ◌≤◌, ◌<◌, length};

use crate::files;
use panel_png::writer::Png;
use std::io;
use std::io::Write;
use std::rt::Files;

// The bytes of a picture, and of a line of it.
const PICTURE: usize = bands::PIXEL_BYTES;

const LINE: usize = 256;

// Copies the red, green and blue of pixels.
fn colours(pixels: &[u8], row: &mut [u8]) {
    let (pixels, _) = pixels.as_chunks::<4>();
    let (row, _) = row.as_chunks_mut::<3>();
    for ([red, green, blue, _], colour) in pixels.iter().zip(row.iter_mut()) {
        *colour = [*red, *green, *blue];
    }
}

// Writes each colour of a row twice.
pub fn double(row: &[u8], out: &mut [u8]) {
    let (row, _) = row.as_chunks::<3>();
    let (out, _) = out.as_chunks_mut::<6>();
    for ([red, green, blue], twice) in row.iter().zip(out.iter_mut()) {
        *twice = [*red, *green, *blue, *red, *green, *blue];
    }
}

// Writes 64 pixels, each twice.
fn doubled(pixels: &[u8], out: &mut [u8]) {
    let mut row = [0; 192];
    colours(pixels, &mut row);
    double(&row, out);
}

// ---- one stage. A line begins with a byte 0: it has no filter

// Writes a line of the image, from 64 pixels.
fn stage_line<W: Write + Drop>(png: Png<W>, pixels: &[u8], is_last: bool) -> io::Result<Png<W>> {
    let mut twice = [0; 384];
    let mut line = [0; 769];
    doubled(pixels, &mut twice);
    double(&twice, &mut line[1..]);
    png.row(&line, is_last)
}

// Writes the lines of the image of a picture.
fn stage_lines<W: Write + Drop>(png: Png<W>, picture: &[u8]) -> io::Result<Png<W>>
    requires { length picture.now ≡ 16384 }
{
    let mut image = png;
    for y in 0..256 {
        let from = LINE * (y / 4);
        image = stage_line(image, &picture[from..from + LINE], y == 255)?;
    }
    Ok(image)
}

// Writes the image of a picture, and hands back what it was written to.
fn stage_image<W: Write + Drop>(out: W, picture: &[u8]) -> io::Result<W>
    requires { length picture.now ≡ 16384 }
{
    stage_lines(Png::begin(out, 256, 256)?, picture)?.end()
}

// Writes the image of a picture; whether it is there now.
pub fn save_stage<R: Files + Eprint>(
    rt: &R,
    folder: &[u8],
    name: &[u8],
    picture: &[u8],
) -> io::Result<bool>
    requires { (length folder.now ≤ 3072) × (length name.now ≤ 64) × (length picture.now ≡ 16384) }
{
    files::save(rt, folder, name, |file| stage_image(file, picture))
}

// ---- all stages

// Fills the last picture with the colour of a picture's first pixel, which is ground.
pub fn ground(reference: &[u8], pictures: &mut [u8])
    requires { (length reference.now ≡ 16384) × (length pictures.old ≡ 131072) }
{
    let colour = [reference[0], reference[1], reference[2], reference[3]];
    let (pixels, _) = pictures[7 * PICTURE..].as_chunks_mut::<4>();
    for pixel in pixels {
        *pixel = colour;
    }
}

// Puts lines of four pictures, the first of which begins at a byte, side by side, with gaps of eight pixels.
fn four_pictures(pictures: &[u8], from: usize, line: &mut [u8])
    requires { (from + 49408 ≤ length pictures.now) × (length line.old ≡ 1657) }
{
    for k in 0..4 {
        let at = from + PICTURE * k;
        let to = 25 + 408 * k;
        doubled(&pictures[at..at + LINE], &mut line[to..to + 384]);
    }
}

// Writes a line of the grid: white, and pictures where it is not in a gap.
fn grid_line<W: Write + Drop>(png: Png<W>, pictures: &[u8], y: usize) -> io::Result<Png<W>>
    requires { (y < 280) × (length pictures.now ≡ 131072) }
{
    let mut line = [255; 1657];
    line[0] = 0;
    if y >= 8 && (y - 8) % 136 < 128 {
        let run = (y - 8) / 136;
        let row = (y - 8) % 136 / 2;
        four_pictures(pictures, 4 * PICTURE * run + LINE * row, &mut line);
    }
    png.row(&line, y == 279)
}

fn grid_lines<W: Write + Drop>(png: Png<W>, pictures: &[u8]) -> io::Result<Png<W>>
    requires { length pictures.now ≡ 131072 }
{
    let mut image = png;
    for y in 0..280 {
        image = grid_line(image, pictures, y)?;
    }
    Ok(image)
}

// Writes the image of all eight pictures, and hands back what it was written to.
fn grid_image<W: Write + Drop>(out: W, pictures: &[u8]) -> io::Result<W>
    requires { length pictures.now ≡ 131072 }
{
    grid_lines(Png::begin(out, 552, 280)?, pictures)?.end()
}

// Writes the image of all eight pictures, two rows of four; whether it is there now.
pub fn save_grid<R: Files + Eprint>(
    rt: &R,
    folder: &[u8],
    name: &[u8],
    pictures: &[u8],
) -> io::Result<bool>
    requires { (length folder.now ≤ 3072) × (length name.now ≤ 64) × (length pictures.now ≡ 131072) }
{
    files::save(rt, folder, name, |file| grid_image(file, pictures))
}
