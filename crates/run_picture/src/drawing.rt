//! A picture as SVG: the bars, and what stands around them.

ghost use Rattle.std.specs.Prelude.{◌≡◌, ◌++◌, OnOk, IfOk};
ghost use Rattle.text_lines.specs.Added.{Kept};
ghost use Rattle.run_picture.specs.Drawing.{bar_begin, take_text, spot_text, raised_text, end_text, tip_text, Draws, Adds, AddsEach};

use crate::bars::{Bar, Spot};
use crate::columns::Board;
use crate::labels::{Label, cause_length, first_reason, put_cause};
use crate::layout::{BAR, Layout, top_of};
use crate::parts::Part::{Number, Text};
use crate::parts::put;
use crate::scenery::{put_back, put_front};
use sched_base::Reasons;
use std::alloc::{AllocError, Global};
use step_tables::Script;
use text_lines::put_bytes;

/// What is drawn.
#[derive(Clone, Copy)]
pub(crate) struct Scene<'a> {
    pub script: Option<&'a Script>,
    pub bars: &'a [Bar],
    pub board: &'a Board,
    pub layout: &'a Layout,
}

/// From how many bars on arrows are faint.
const MANY_BARS: usize = 200;

/// From how many bars on there are no arrows.
const VERY_MANY_BARS: usize = 20_000;

/// The width of a letter of a bar's name, in tenths of a pixel.
const LETTER: u64 = 68;

/// The width of a letter of a bar's cause, in tenths of a pixel.
const SMALL_LETTER: u64 = 56;

/// Whether so many letters fit.
fn fits(letters: usize, letter: u64, width: u64) -> bool {
    (letters as u64).saturating_mul(letter) / 10 + 6 <= width
}

/// The whole picture.
pub(crate) fn draw(alloc: Global, scene: &Scene<'_>) -> Result<Vec<u8>, AllocError>
    ensures { IfOk result (λ text. Draws scene.now.bars.now text.items) }
{
    let mut out = Vec::new(alloc);
    put_front(&mut out, scene)?;
    put_arrows(&mut out, scene)?;
    put_bars(&mut out, scene)?;
    put_back(&mut out, scene)?;
    Ok(out)
}

/// Appends all bars.
fn put_bars(out: &mut Vec<u8>, scene: &Scene<'_>) -> Result<(), AllocError>
    ensures kept { Kept out.old.items out.new.items }
    ensures drawn { OnOk result (AddsEach scene.now.bars.now out.old.items out.new.items) }
{
    for bar in scene.bars {
        put_bar(out, scene, bar)?;
    }
    Ok(())
}

/// Appends a bar.
fn put_bar(out: &mut Vec<u8>, scene: &Scene<'_>, bar: &Bar) -> Result<(), AllocError>
    ensures kept { Kept out.old.items out.new.items }
    ensures drawn { OnOk result (Adds bar.now out.old.items out.new.items) }
{
    let x = scene.layout.left_of(&bar.spot);
    begin_bar(out, bar, x)?;
    put_name(out, scene, bar)?;
    put_tip(out, bar)?;
    let width = scene.layout.unit.saturating_mul(bar.entries).max(2) - 1;
    put_body(out, bar, width)?;
    put_words(out, scene, bar, width)?;
    put_bytes(out, b"</g>\n")
}

/// Appends the beginning of a bar, up to its task.
fn begin_bar(out: &mut Vec<u8>, bar: &Bar, x: u64) -> Result<(), AllocError>
    ensures kept { Kept out.old.items out.new.items }
    ensures written { OnOk result (out.new.items ≡ out.old.items ++ bar_begin bar.now x) }
{
    put(
        out,
        &[
            Text(b"<g id='L"),
            Number(bar.spot.line),
            Text(b"' transform='translate("),
            Number(x),
            Text(b","),
            Number(top_of(bar.spot.lane)),
            Text(b")'><title>task "),
            Number(u64::from(bar.task.0)),
        ],
    )
}

/// Appends the name of a bar's task, where it has one.
fn put_name(out: &mut Vec<u8>, scene: &Scene<'_>, bar: &Bar) -> Result<(), AllocError>
    ensures { Kept out.old.items out.new.items }
{
    let label = Label::of(scene.script, bar.task);
    if let Label::Named(_) = label {
        put_bytes(out, b" ")?;
        label.put(out)?;
    }
    Ok(())
}

/// Appends the rest of a bar's tip: which take of its task it is and why, where it stands, and what raised it.
#[tactic(auto, unfolding(crate::specs::Drawing::tip_text))]
fn put_tip(out: &mut Vec<u8>, bar: &Bar) -> Result<(), AllocError>
    ensures kept { Kept out.old.items out.new.items }
    ensures written { OnOk result (out.new.items ≡ out.old.items ++ tip_text bar.now) }
{
    put_take(out, bar.takes)?;
    put_cause(out, bar)?;
    put_spot(out, &bar.spot)?;
    put_raise(out, bar.raised)?;
    put_bytes(out, tip_end(bar.is_retired))
}

/// Appends which take of its task a bar is, of which so many were before.
fn put_take(out: &mut Vec<u8>, takes: u64) -> Result<(), AllocError>
    ensures kept { Kept out.old.items out.new.items }
    ensures written { OnOk result (out.new.items ≡ out.old.items ++ take_text takes) }
{
    put(
        out,
        &[
            Text(b": take "),
            Number(takes.saturating_add(1)),
            Text(b" for "),
        ],
    )
}

/// Appends where a bar stands.
fn put_spot(out: &mut Vec<u8>, spot: &Spot) -> Result<(), AllocError>
    ensures kept { Kept out.old.items out.new.items }
    ensures written { OnOk result (out.new.items ≡ out.old.items ++ spot_text spot.now) }
{
    put(
        out,
        &[
            Text(b", round "),
            Number(u64::from(spot.round)),
            Text(b", line "),
            Number(spot.line),
        ],
    )
}

/// Appends in which line a bar's task was raised, if in any.
fn put_raise(out: &mut Vec<u8>, raised: Option<Spot>) -> Result<(), AllocError>
    ensures kept { Kept out.old.items out.new.items }
    ensures written { OnOk result (out.new.items ≡ out.old.items ++ raised_text raised) }
{
    match raised {
        Some(from) => put(out, &[Text(b", raised in line "), Number(from.line)]),
        None => Ok(()),
    }
}

/// The end of a bar's tip.
fn tip_end(is_retired: bool) -> &'static [u8]
    ensures { result.now ≡ end_text is_retired }
{
    if is_retired {
        b", retired</title>"
    } else {
        b"</title>"
    }
}

/// Appends the body of a bar: a box in the colour of its first reason, a strip for each further one, and a
/// cross where its task is retired.
fn put_body(out: &mut Vec<u8>, bar: &Bar, width: u64) -> Result<(), AllocError>
    ensures { Kept out.old.items out.new.items }
{
    let first = first_reason(bar);
    put(
        out,
        &[
            Text(b"<rect class='r"),
            Number(first as u64),
            Text(b"' width='"),
            Number(width),
            Text(b"' height='"),
            Number(BAR),
            Text(b"' rx='2'/>"),
        ],
    )?;
    put_strips(out, bar, first, width)?;
    if bar.is_retired {
        put_cross(out, width)?;
    }
    Ok(())
}

/// Appends a strip for each reason behind the first one, from the bottom up.
fn put_strips(out: &mut Vec<u8>, bar: &Bar, first: usize, width: u64) -> Result<(), AllocError>
    ensures { Kept out.old.items out.new.items }
{
    let mut height = BAR;
    let reasons = Reasons::each();
    for (place, reason) in reasons.iter().enumerate() {
        if place != first && bar.reasons.contains(*reason) {
            height = height.saturating_sub(5);
            put(
                out,
                &[
                    Text(b"<rect class='r"),
                    Number(place as u64),
                    Text(b"' y='"),
                    Number(height),
                    Text(b"' width='"),
                    Number(width),
                    Text(b"' height='5'/>"),
                ],
            )?;
        }
    }
    Ok(())
}

/// Appends the cross of a retired task.
fn put_cross(out: &mut Vec<u8>, width: u64) -> Result<(), AllocError>
    ensures { Kept out.old.items out.new.items }
{
    put(
        out,
        &[
            Text(b"<path class='x' d='M"),
            Number(width.saturating_sub(5)),
            Text(b",-5l10,10m0,-10l-10,10'/>"),
        ],
    )
}

/// Appends a task's name and the cause of its run, where they fit.
fn put_words(out: &mut Vec<u8>, scene: &Scene<'_>, bar: &Bar, width: u64) -> Result<(), AllocError>
    ensures { Kept out.old.items out.new.items }
{
    let label = Label::of(scene.script, bar.task);
    let ink: &[u8] = if first_reason(bar) == 5 { b"w" } else { b"b" };
    if fits(label.length(), LETTER, width) {
        put(
            out,
            &[Text(b"<text class='"), Text(ink), Text(b"' x='4' y='15'>")],
        )?;
        label.put(out)?;
        put_bytes(out, b"</text>")?;
    }
    if fits(cause_length(bar), SMALL_LETTER, width) {
        put(
            out,
            &[
                Text(b"<text class='"),
                Text(ink),
                Text(b" s' x='4' y='28'>"),
            ],
        )?;
        put_cause(out, bar)?;
        put_bytes(out, b"</text>")?;
    }
    Ok(())
}

/// Appends an arrow for each bar from the entry that raised its task, where that is shown.
fn put_arrows(out: &mut Vec<u8>, scene: &Scene<'_>) -> Result<(), AllocError> {
    if scene.bars.len() >= VERY_MANY_BARS {
        return Ok(());
    }
    let class: &[u8] = if scene.bars.len() < MANY_BARS {
        b"<g class='a'>\n"
    } else {
        b"<g class='a f'>\n"
    };
    put_bytes(out, class)?;
    for bar in scene.bars {
        if let Some(from) = bar.raised {
            if scene.layout.first <= from.round {
                put_arrow(out, scene, &from, &bar.spot)?;
            }
        }
    }
    put_bytes(out, b"</g>\n")
}

/// An end of an arrow, and the height towards which the arrow bends there.
#[derive(Clone, Copy)]
struct Anchor {
    x: u64,
    y: u64,
    bend: u64,
}

/// How far an arrow bends.
const BEND: u64 = 16;

/// Where an arrow to another lane leaves an entry: on the side of that lane, or above for its own. The
/// injector has no bars, so arrows leave its line.
fn source_of(scene: &Scene<'_>, from: &Spot, to: &Spot) -> Anchor {
    let top = top_of(from.lane);
    let x = scene
        .layout
        .left_of(from)
        .saturating_add(scene.layout.unit / 2);
    let bottom = if from.lane == scene.board.workers {
        top + BAR / 2
    } else {
        top + BAR
    };
    let upper = if from.lane == scene.board.workers {
        bottom
    } else {
        top
    };
    if to.lane > from.lane {
        return Anchor {
            x,
            y: bottom,
            bend: bottom.saturating_add(BEND),
        };
    }
    Anchor {
        x,
        y: upper,
        bend: upper.saturating_sub(BEND),
    }
}

/// Where an arrow from another lane meets a bar: on the side of that lane, or above for its own.
fn target_of(scene: &Scene<'_>, from: &Spot, to: &Spot) -> Anchor {
    let top = top_of(to.lane);
    let x = scene
        .layout
        .left_of(to)
        .saturating_add(scene.layout.unit.min(12) / 2);
    if to.lane < from.lane {
        let bottom = top + BAR;
        return Anchor {
            x,
            y: bottom,
            bend: bottom.saturating_add(BEND),
        };
    }
    Anchor {
        x,
        y: top,
        bend: top.saturating_sub(BEND),
    }
}

/// Appends an arrow from an entry to a bar.
fn put_arrow(
    out: &mut Vec<u8>,
    scene: &Scene<'_>,
    from: &Spot,
    to: &Spot,
) -> Result<(), AllocError> {
    let source = source_of(scene, from, to);
    let target = target_of(scene, from, to);
    put(
        out,
        &[
            Text(b"<path d='M"),
            Number(source.x),
            Text(b","),
            Number(source.y),
            Text(b"C"),
            Number(source.x),
            Text(b","),
            Number(source.bend),
            Text(b","),
            Number(target.x),
            Text(b","),
            Number(target.bend),
            Text(b","),
            Number(target.x),
            Text(b","),
            Number(target.y),
            Text(b"'/>\n"),
        ],
    )
}
