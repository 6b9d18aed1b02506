//! A picture as text: one line for each round and worker, of at most 100 columns.

ghost use Rattle.std.specs.Prelude.{◌≤◌, length};

use crate::bars::Bar;
use crate::columns::Column;
use crate::drawing::Scene;
use crate::labels::{Label, digits};
use crate::parts::Part::{Number, Text};
use crate::parts::put;
use sched_base::Reasons;
use std::alloc::{AllocError, Global};
use text_lines::put_bytes;

/// How many columns the runs of a line may take, behind the round, its tick and the worker.
const ROOM: usize = 60;

/// The letters of the reasons, in their order.
const LETTERS: [u8; 7] = *b"itosmrx";

/// The whole table.
pub(crate) fn tell(alloc: Global, scene: &Scene<'_>) -> Result<Vec<u8>, AllocError> {
    let mut out = Vec::new(alloc);
    put_bytes(&mut out, b" round       tick  worker  runs\n")?;
    let mut rest = scene.bars;
    for column in scene.board.columns.as_slice() {
        let (here, behind) = rest.split_at(count_of_round(rest, column.round));
        rest = behind;
        for lane in 0..scene.board.workers.min(18) {
            put_line(&mut out, scene, column, here, lane)?;
        }
    }
    put_end(&mut out, scene)?;
    Ok(out)
}

/// How many bars in front are of a round.
fn count_of_round(bars: &[Bar], round: u32) -> usize
    ensures { result ≤ length bars.now }
{
    match bars.iter().position(|bar| bar.spot.round != round) {
        Some(place) => place,
        None => bars.len(),
    }
}

/// Appends the line of a worker in a round.
fn put_line(
    out: &mut Vec<u8>,
    scene: &Scene<'_>,
    column: &Column,
    here: &[Bar],
    lane: u32,
) -> Result<(), AllocError> {
    put_aligned(out, column.round, 6)?;
    put_aligned(out, column.tick, 11)?;
    put_aligned(out, lane, 8)?;
    put_bytes(out, b" ")?;
    let mut room = ROOM;
    let mut rest: u64 = 0;
    for bar in here {
        if bar.spot.lane == lane {
            let wanted = columns_of(scene, bar);
            if rest == 0 && wanted <= room {
                room -= wanted;
                put_run(out, scene, bar)?;
            } else {
                rest = rest.saturating_add(1);
            }
        }
    }
    if rest > 0 {
        put(out, &[Text(b" +"), Number(rest)])?;
    }
    put_bytes(out, b"\n")
}

/// How many columns a run takes.
fn columns_of(scene: &Scene<'_>, bar: &Bar) -> usize {
    let mut letters: usize = if bar.is_killed { 1 } else { 0 };
    for reason in Reasons::each() {
        if bar.reasons.contains(reason) {
            letters = letters.saturating_add(1);
        }
    }
    letters
        .saturating_add(Label::of(scene.script, bar.task).length())
        .saturating_add(2)
}

/// Appends a run: its task, and a letter for each reason.
fn put_run(out: &mut Vec<u8>, scene: &Scene<'_>, bar: &Bar) -> Result<(), AllocError> {
    put_bytes(out, b" ")?;
    Label::of(scene.script, bar.task).put(out)?;
    put_bytes(out, b":")?;
    for (letter, reason) in LETTERS.into_iter().zip(Reasons::each()) {
        if bar.reasons.contains(reason) {
            put_bytes(out, &[letter])?;
        }
    }
    if bar.is_killed {
        put_bytes(out, b"k")?;
    }
    Ok(())
}

/// Appends a number that ends at the given column, or behind it.
fn put_aligned(out: &mut Vec<u8>, number: u32, columns: u32) -> Result<(), AllocError> {
    for _ in digits(number)..columns {
        put_bytes(out, b" ")?;
    }
    put(out, &[Number(u64::from(number))])
}

/// Appends how the run ended, and what the letters mean.
fn put_end(out: &mut Vec<u8>, scene: &Scene<'_>) -> Result<(), AllocError> {
    if let Some(ending) = &scene.board.ending {
        let word: &[u8] = if ending.is_rest {
            b"end rest "
        } else {
            b"end limit "
        };
        put(
            out,
            &[Text(word), Number(u64::from(ending.last)), Text(b"\n")],
        )?;
    }
    put_bytes(
        out,
        b"i init, t timer, o io, s signal, m msg, r res, x other, k killed\n",
    )
}
