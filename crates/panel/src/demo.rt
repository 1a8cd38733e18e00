// The demo: a whole stream and a cut one, stage by stage.
ghost use Rattle.std.specs.Prelude.{◌≡◌, ◌≤◌, length};

use crate::{ladders, passes};
use answer::Refusal;
use panel_output::{files, images, places, refusals, report};
use panel_picture::{drawing, measure};
use std::io;
use std::rt::Files;
use tile::TileState;
use tile_passes::Passed;

// The bytes of a picture, of which there are eight: four of the whole stream, three of the cut one, and one that is ground only.
const PICTURE: usize = bands::PIXEL_BYTES;

const PICTURES: usize = 131072;

// What all stages have in common: the panel's coefficients, the pixels of the uncut panel, with which each stage is compared, and where images go.
#[derive(Clone, Copy)]
struct Scene<'a> {
    full: &'a [i16; bands::COEFFICIENTS_PER_TILE],
    reference: &'a [u8; PICTURE],
    folder: &'a [u8],
    ghost short_folder: { length folder.now ≤ 3072 },
}

// What arrives at a stage: no bits that are counted, since the first pass is outside the port; a pass to positions, or the first half of its bytes.
#[derive(Clone, Copy)]
enum Arrives {
    FirstCut,
    Pass([u8; 10]),
    HalfPass([u8; 10]),
}

// A stage: its name, what arrives, and the file of its image.
#[derive(Clone, Copy)]
struct Stage<'a> {
    name: &'a str,
    arrives: Arrives,
    file: &'a [u8],
    ghost short_file: { length file.now ≤ 64 },
}

// Where a run stands: its tile, the bits so far, and the figures of its last stage.
#[derive(Clone, Copy)]
struct Run {
    tile: TileState,
    bits: u64,
    figures: report::Figures,
}

// ---- one stage

// The figures of a stage, from its tile and its pixels. The ground is measured twelve rows above the minus stroke.
fn figures(
    t: &TileState,
    pixels: &[u8],
    reference: &[u8],
    passed: Passed,
    all_bits: u64,
) -> report::Figures
    requires { (length pixels.now ≡ 16384) × (length reference.now ≡ 16384) }
{
    report::Figures {
        bits: passed.bits,
        all_bits,
        missing: passed.missing,
        undecided: measure::undecided(t.zero_signs, t.prog_quant),
        stroke: measure::grey(pixels, drawing::MINUS_LEFT, drawing::MINUS_TOP),
        ground: measure::grey(pixels, drawing::MINUS_LEFT, drawing::MINUS_TOP - 12),
        difference: u64::from(measure::largest_difference(pixels, reference)),
    }
}

// Brings a tile to a stage, and makes its pixels.
fn arrive(
    full: &[i16],
    t: &mut TileState,
    arrives: Arrives,
    picture: &mut [u8],
) -> Result<Passed, Refusal>
    requires { length full.now ≡ 12288 }
{
    let passed = match arrives {
        Arrives::FirstCut => Passed {
            bits: 0,
            missing: 0,
        },
        Arrives::Pass(positions) => passes::pass(full, t, positions, false)?,
        Arrives::HalfPass(positions) => passes::pass(full, t, positions, true)?,
    };
    t.reconstruct_to_rgba(picture)?;
    Ok(passed)
}

// Shows a stage of a run: its pixels, its image and its line; whether the run goes on.
fn show(
    rt: &(impl Files + Print + Eprint),
    scene: Scene<'_>,
    run_name: &str,
    stage: Stage<'_>,
    run: &mut Run,
    picture: &mut [u8; PICTURE],
) -> io::Result<bool> {
    let Scene {
        full,
        reference,
        folder,
    } = scene;
    let Stage {
        name,
        arrives,
        file,
    } = stage;
    let passed = match arrive(full, &mut run.tile, arrives, picture) {
        Ok(passed) => passed,
        Err(refusal) => {
            refusals::say(rt, refusal)?;
            return Ok(false);
        }
    };
    if !images::save_stage(rt, folder, file, picture)? {
        return Ok(false);
    }
    run.bits = run.bits.wrapping_add(passed.bits);
    run.figures = figures(&run.tile, picture, reference, passed, run.bits);
    report::stage(rt, run_name, name, run.figures, file)?;
    Ok(true)
}

// ---- the two runs

// A run, stage by stage; nothing where it does not come to its end.
fn run_stages(
    rt: &(impl Files + Print + Eprint),
    scene: Scene<'_>,
    name: &str,
    stages: &[Stage<'_>],
    pictures: &mut [u8],
) -> io::Result<Option<Run>> {
    let full = scene.full;
    let tile = match passes::loaded(full, passes::FIRST_CUT) {
        Ok(tile) => tile,
        Err(refusal) => {
            refusals::say(rt, refusal)?;
            return Ok(None);
        }
    };
    let mut run = Run {
        tile,
        bits: 0,
        figures: report::Figures::default(),
    };
    let (pictures, _) = pictures.as_chunks_mut::<PICTURE>();
    for (stage, picture) in stages.iter().zip(pictures.iter_mut()) {
        if !show(rt, scene, name, *stage, &mut run, picture)? {
            return Ok(None);
        }
    }
    Ok(Some(run))
}

// All three passes arrive.
fn whole(
    rt: &(impl Files + Print + Eprint),
    scene: Scene<'_>,
    pictures: &mut [u8],
) -> io::Result<Option<Run>> {
    let stages = [
        Stage {
            name: "first cut",
            arrives: Arrives::FirstCut,
            file: b"whole-0-first-cut.png",
        },
        Stage {
            name: "pass 1",
            arrives: Arrives::Pass(passes::PASS_1),
            file: b"whole-1.png",
        },
        Stage {
            name: "pass 2",
            arrives: Arrives::Pass(passes::PASS_2),
            file: b"whole-2.png",
        },
        Stage {
            name: "pass 3",
            arrives: Arrives::Pass(passes::PASS_3),
            file: b"whole-3.png",
        },
    ];
    run_stages(rt, scene, "whole", &stages, pictures)
}

// The stream ends half-way in the second pass.
fn cut(
    rt: &(impl Files + Print + Eprint),
    scene: Scene<'_>,
    pictures: &mut [u8],
) -> io::Result<Option<Run>> {
    let stages = [
        Stage {
            name: "first cut",
            arrives: Arrives::FirstCut,
            file: b"cut-0-first-cut.png",
        },
        Stage {
            name: "pass 1",
            arrives: Arrives::Pass(passes::PASS_1),
            file: b"cut-1.png",
        },
        Stage {
            name: "half pass 2",
            arrives: Arrives::HalfPass(passes::PASS_2),
            file: b"cut-2.png",
        },
    ];
    run_stages(rt, scene, "cut", &stages, pictures)
}

// ---- all of it

// The pixels of the uncut panel.
fn uncut(full: &[i16], reference: &mut [u8]) -> Result<(), Refusal>
    requires { length full.now ≡ 12288 }
{
    passes::loaded(full, [0; 10])?.reconstruct_to_rgba(reference)
}

// What both runs came to, other ladders beside the whole stream's, and the bands. The picture is the last one of the whole stream.
fn closing_report(
    rt: &(impl Files + Print + Eprint),
    scene: Scene<'_>,
    whole: &Run,
    cut: report::Figures,
    picture: &[u8],
) -> io::Result<()>
    requires { length picture.now ≡ 16384 }
{
    let full = scene.full;
    let folder = scene.folder;
    report::summary(rt, whole.figures, cut, folder)?;
    if !ladders::others(rt, full, &whole.tile, whole.bits, picture)? {
        return Ok(());
    }
    if places::save(rt, folder, b"bands.png")? {
        places::legend(rt, folder)?;
    }
    Ok(())
}

// Both runs, the image of all their stages, and the end of the report.
fn both_runs(
    rt: &(impl Files + Print + Eprint),
    scene: Scene<'_>,
    pictures: &mut [u8],
) -> io::Result<()>
    requires { length pictures.old ≡ 131072 }
{
    let folder = scene.folder;
    let Some(whole) = whole(rt, scene, &mut pictures[..4 * PICTURE])? else {
        return Ok(());
    };
    let Some(cut) = cut(rt, scene, &mut pictures[4 * PICTURE..7 * PICTURE])? else {
        return Ok(());
    };
    if !images::save_grid(rt, folder, b"sharpening.png", pictures)? {
        return Ok(());
    }
    let last = &pictures[3 * PICTURE..4 * PICTURE];
    closing_report(rt, scene, &whole, cut.figures, last)
}

// Eight pictures, the last of which is ground only, and both runs.
fn with_reference(rt: &(impl Files + Print + Eprint), scene: Scene<'_>) -> io::Result<()> {
    let reference = scene.reference;
    let mut pictures = [0; PICTURES];
    images::ground(reference, &mut pictures);
    both_runs(rt, scene, &mut pictures)
}

// The pixels of the uncut panel come first: with them every stage is compared.
fn with_panel(
    rt: &(impl Files + Print + Eprint),
    full: &[i16; bands::COEFFICIENTS_PER_TILE],
    folder: &[u8],
) -> io::Result<()>
    requires { length folder.now ≤ 3072 }
{
    let mut reference = [0; PICTURE];
    if let Err(refusal) = uncut(full, &mut reference) {
        return refusals::say(rt, refusal);
    }
    report::introduce(
        rt,
        [
            passes::FIRST_CUT,
            passes::PASS_1,
            passes::PASS_2,
            passes::PASS_3,
        ],
    )?;
    let scene = Scene {
        full,
        reference: &reference,
        folder,
    };
    with_reference(rt, scene)
}

pub fn demo(rt: &(impl Files + Print + Eprint), folder: &[u8]) -> io::Result<()>
    requires { length folder.now ≤ 3072 }
{
    if !files::make_folder(rt, folder)? {
        return Ok(());
    }
    let mut full = [0; bands::COEFFICIENTS_PER_TILE];
    panel_picture::panel(&mut full);
    with_panel(rt, &full, folder)
}
