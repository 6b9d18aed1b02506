//! What stands around the bars of a picture: its head, the rounds, the lanes, the end and the legend.

ghost use Rattle.text_lines.specs.Added.{Kept};

use crate::columns::{Column, Ending};
use crate::drawing::Scene;
use crate::labels::put_lane;
use crate::layout::{BAR, LANE, LEFT, TOP, top_of};
use crate::parts::Part::{Number, Text};
use crate::parts::put;
use std::alloc::AllocError;
use text_lines::put_bytes;

/// The colours, in light and in dark, and the fonts.
const STYLE: &[u8] = b"<style>
svg{--sheet:#fff;--ink:#1c2126;--dim:#5b6570;--line:#c3cad1;--band:#f2f4f6;font-family:'DejaVu Sans','Segoe UI',Helvetica,Arial,sans-serif;font-size:12px}
@media (prefers-color-scheme:dark){svg{--sheet:#14181c;--ink:#e8ecf0;--dim:#9aa5b0;--line:#47515b;--band:#1d232a}}
text{fill:var(--ink)}
.p{fill:var(--sheet)}.n{fill:var(--band)}.l{stroke:var(--line);fill:none}.d{fill:var(--dim);font-size:11px}.h{font-weight:bold}
.r0{fill:#b4b9be}.r1{fill:#e69f00}.r2{fill:#56b4e9}.r3{fill:#f0e442}.r4{fill:#009e73}.r5{fill:#0072b2}.r6{fill:#cc79a7}.r7{fill:#d55e00}
.b{fill:#000;font-size:11px;font-weight:bold}.w{fill:#fff;font-size:11px;font-weight:bold}.s{font-size:10px;font-weight:normal}
.a path{fill:none;stroke:var(--ink);stroke-width:1.3;opacity:.75;marker-start:url(#o);marker-end:url(#v)}.f path{stroke-width:.7;opacity:.22}
.x{stroke:#d55e00;stroke-width:3;fill:none}.e{stroke:var(--ink);stroke-width:2}
</style>
<defs><marker id='v' viewBox='0 0 8 8' refX='7' refY='4' markerWidth='7' markerHeight='7' markerUnits='userSpaceOnUse' orient='auto'><path d='M0,0L8,4L0,8z' fill='#7a8590' stroke='none'/></marker><marker id='o' viewBox='0 0 6 6' refX='3' refY='3' markerWidth='6' markerHeight='6' markerUnits='userSpaceOnUse'><circle cx='3' cy='3' r='3' fill='#7a8590'/></marker></defs>
";

/// The reasons in the order of their classes, and killed behind them.
static CAUSES: [&[u8]; 8] = [
    b"init", b"timer", b"io", b"signal", b"msg", b"res", b"other", b"killed",
];

/// Appends what stands before the bars.
pub(crate) fn put_front(out: &mut Vec<u8>, scene: &Scene<'_>) -> Result<(), AllocError> {
    put_size(out, scene)?;
    put_bytes(out, STYLE)?;
    put_bytes(out, b"<rect class='p' width='100%' height='100%'/>\n")?;
    put_title(out, scene)?;
    put_columns(out, scene)?;
    put_lanes(out, scene)
}

/// Appends what stands behind the bars.
pub(crate) fn put_back(out: &mut Vec<u8>, scene: &Scene<'_>) -> Result<(), AllocError>
    ensures { Kept out.old.items out.new.items }
{
    if let Some(ending) = &scene.board.ending {
        if is_end_shown(scene, ending) {
            put_ending(out, scene, ending)?;
        }
    }
    put_legend(out, scene)?;
    put_bytes(out, b"</svg>\n")
}

/// Whether the last round of the run is shown.
fn is_end_shown(scene: &Scene<'_>, ending: &Ending) -> bool {
    match scene.board.columns.as_slice() {
        [.., last] => last.round == ending.last,
        [] => false,
    }
}

/// Appends the head of the picture, with its size.
fn put_size(out: &mut Vec<u8>, scene: &Scene<'_>) -> Result<(), AllocError> {
    let width = scene.layout.width;
    let height = scene.layout.bottom.saturating_add(66);
    put(
        out,
        &[
            Text(b"<svg xmlns='http://www.w3.org/2000/svg' width='"),
            Number(width),
            Text(b"' height='"),
            Number(height),
            Text(b"' viewBox='0 0 "),
            Number(width),
            Text(b" "),
            Number(height),
            Text(b"'>\n"),
        ],
    )
}

/// Appends a line that says what is shown.
fn put_title(out: &mut Vec<u8>, scene: &Scene<'_>) -> Result<(), AllocError> {
    put_bytes(out, b"<text class='h' x='12' y='24'>")?;
    match scene.board.columns.as_slice() {
        [first, .., last] => put(
            out,
            &[
                Text(b"Rounds "),
                Number(u64::from(first.round)),
                Text(b" to "),
                Number(u64::from(last.round)),
            ],
        )?,
        [only] => put(out, &[Text(b"Round "), Number(u64::from(only.round))])?,
        [] => put_bytes(out, b"No round")?,
    }
    if let Some(ending) = &scene.board.ending {
        put(out, &[Text(b" of 0 to "), Number(u64::from(ending.last))])?;
    }
    put(
        out,
        &[
            Text(b", "),
            Number(scene.bars.len() as u64),
            Text(
                b" runs</text>\n<text class='d' x='12' y='42'>each bar is one run of a task: its name, and why it ran; dots and arrows: the wake that led to a run</text>\n",
            ),
        ],
    )
}

/// Appends the rounds.
fn put_columns(out: &mut Vec<u8>, scene: &Scene<'_>) -> Result<(), AllocError> {
    let mut free: u64 = 0;
    for (place, column) in scene.board.columns.as_slice().iter().enumerate() {
        let left = edge(scene, place);
        let right = edge(scene, place.saturating_add(1));
        if place % 2 == 0 {
            put_band(out, scene, left, right)?;
        }
        if free <= left {
            put_column(out, column, left)?;
            free = left.saturating_add(96);
        }
    }
    Ok(())
}

/// The left edge of a round.
fn edge(scene: &Scene<'_>, place: usize) -> u64 {
    match scene.layout.edges.get(place) {
        Some(edge) => *edge,
        None => scene.layout.right,
    }
}

/// Appends the ground of a round.
fn put_band(out: &mut Vec<u8>, scene: &Scene<'_>, left: u64, right: u64) -> Result<(), AllocError> {
    put(
        out,
        &[
            Text(b"<rect class='n' x='"),
            Number(left),
            Text(b"' y='50' width='"),
            Number(right.saturating_sub(left)),
            Text(b"' height='"),
            Number(scene.layout.bottom.saturating_sub(50)),
            Text(b"'/>\n"),
        ],
    )
}

/// Appends the number and the tick of a round.
fn put_column(out: &mut Vec<u8>, column: &Column, left: u64) -> Result<(), AllocError> {
    let x = left.saturating_add(6);
    put(
        out,
        &[
            Text(b"<text x='"),
            Number(x),
            Text(b"' y='65'>round "),
            Number(u64::from(column.round)),
            Text(b"</text><text class='d' x='"),
            Number(x),
            Text(b"' y='79'>tick "),
            Number(u64::from(column.tick)),
            Text(b"</text>\n"),
        ],
    )
}

/// Appends the lanes.
fn put_lanes(out: &mut Vec<u8>, scene: &Scene<'_>) -> Result<(), AllocError> {
    for lane in 0..scene.board.lanes.min(18) {
        let middle = top_of(lane) + BAR / 2;
        put(
            out,
            &[
                Text(b"<path class='l' d='M"),
                Number(LEFT),
                Text(b","),
                Number(middle),
                Text(b"H"),
                Number(scene.layout.right),
                Text(b"'/><text x='12' y='"),
                Number(middle + 4),
                Text(b"'>"),
            ],
        )?;
        put_lane(out, lane, scene.board.workers)?;
        put_bytes(out, b"</text>\n")?;
    }
    Ok(())
}

/// Appends the end of the run.
fn put_ending(out: &mut Vec<u8>, scene: &Scene<'_>, ending: &Ending) -> Result<(), AllocError>
    ensures { Kept out.old.items out.new.items }
{
    let x = scene.layout.right;
    let word: &[u8] = if ending.is_rest { b"rest" } else { b"limit" };
    put(
        out,
        &[
            Text(b"<path class='e' d='M"),
            Number(x),
            Text(b",50V"),
            Number(scene.layout.bottom),
            Text(b"'/><text x='"),
            Number(x.saturating_add(6)),
            Text(b"' y='65'>end</text><text class='h' x='"),
            Number(x.saturating_add(6)),
            Text(b"' y='79'>"),
            Text(word),
            Text(b"</text>\n"),
        ],
    )
}

/// Appends the legend.
fn put_legend(out: &mut Vec<u8>, scene: &Scene<'_>) -> Result<(), AllocError>
    ensures { Kept out.old.items out.new.items }
{
    let y = scene.layout.bottom.saturating_add(30);
    put(
        out,
        &[
            Text(b"<text class='d' x='12' y='"),
            Number(y),
            Text(b"'>why it ran</text>\n"),
        ],
    )?;
    let mut x = LEFT;
    for (place, cause) in CAUSES.iter().enumerate() {
        put_cause_box(out, place as u64, cause, x, y)?;
        x = x.saturating_add(76);
    }
    put(
        out,
        &[
            Text(b"<path class='x' d='M"),
            Number(x),
            Text(b","),
            Number(y.saturating_sub(9)),
            Text(b"l10,10m0,-10l-10,10'/><text class='d' x='"),
            Number(x.saturating_add(16)),
            Text(b"' y='"),
            Number(y),
            Text(b"'>retired</text>\n"),
        ],
    )
}

/// Appends a colour of the legend.
fn put_cause_box(
    out: &mut Vec<u8>,
    place: u64,
    cause: &[u8],
    x: u64,
    y: u64,
) -> Result<(), AllocError>
    ensures { Kept out.old.items out.new.items }
{
    put(
        out,
        &[
            Text(b"<rect class='r"),
            Number(place),
            Text(b"' x='"),
            Number(x),
            Text(b"' y='"),
            Number(y.saturating_sub(11)),
            Text(b"' width='14' height='14' rx='2'/><text class='d' x='"),
            Number(x.saturating_add(19)),
            Text(b"' y='"),
            Number(y),
            Text(b"'>"),
            Text(cause),
            Text(b"</text>\n"),
        ],
    )
}
