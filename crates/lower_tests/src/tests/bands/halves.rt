//! Bands that are painted in two parts.
ghost use Rattle.std.specs.Prelude.{◌≡◌, ◌≤◌};
ghost use Rattle.y4m_header.specs.declared.limits.TheConstants.{LONGEST_SIDE};

use super::Copied;
use crate::tests::{same, same_at, same_list};
use frame_view::{Frame, Geometry};
use row_bands::{BandHeight, Canvas, Painter, paint_halves};
use std::alloc::Global;
use std::process::Abort;
use std::sync::atomic::{AtomicU32, Ordering};
use std::test::Fail;
use std::thread::Threads;
use test_tools::{Parts, frame_of};
use y4m_header::Chroma;

/// A frame that is one band, painted in two parts: above luma row 2, and from it on.
fn painted<T: Threads + Abort, P: Painter + Sync, N: Fn(u32) + Sync>(
    rt: &T,
    alloc: Global,
    geometry: Geometry,
    painter: &P,
    note: &N,
) -> Result<Frame, Fail>
    requires callable { N.pre note.now 0 × N.pre note.now 1 }
    requires geometry { P.geometry painter.now ≡ geometry }
{
    let height = BandHeight::new(geometry.height).ok_or("no height")?;
    let mut canvas = Canvas::new(alloc, geometry, height, b"FRAME")?;
    assert_eq!(rt; canvas.plan().count(), 1);
    let mut band = canvas.band_mut(0);
    let (from, to) = band.luma_rows();
    same(rt, (from, to), (0, geometry.height as usize));
    assert!(rt; from <= 2 && 2 <= to);
    paint_halves(rt, painter, &mut band, 2, note);
    Ok(canvas.into_frame())
}

#[test]
fn each_part_of_a_band_is_noted_once(rt: HostRuntime) -> Result<(), Fail> {
    let geometry = Geometry {
        width: 2,
        height: 4,
        chroma: Chroma::S420,
    };
    let samples = [1, 2, 3, 4, 5, 6, 7, 8, 9, 10, 11, 12];
    let source = frame_of(rt.alloc(), geometry, b"FRAME", &samples)?;
    let painter = Copied { source: &source };
    let parts = Parts::new();
    let image = painted(
        &rt,
        rt.alloc(),
        geometry,
        &painter,
        &|half| parts.begin(half),
    )?;
    same(&rt, parts.begun(), (1, 1));
    same_list(&rt, image.data(), &samples);
    Ok(())
}

/// The rows that a painter was asked for: how many calls, and over the calls the sum of the first rows and
/// the sum of the squares of the numbers of rows.
#[derive(Drop)]
struct Asked {
    calls: AtomicU32,
    starts: AtomicU32,
    squares: AtomicU32,
}

impl Asked {
    fn none() -> Asked {
        Asked {
            calls: AtomicU32::new(0),
            starts: AtomicU32::new(0),
            squares: AtomicU32::new(0),
        }
    }

    fn add(&self, from: usize, to: usize)
        requires order { from ≤ to }
        requires few { to ≤ LONGEST_SIDE }
    {
        let rows = (to - from) as u32;
        self.calls.fetch_add(1, Ordering::SeqCst);
        self.starts.fetch_add(from as u32, Ordering::SeqCst);
        self.squares.fetch_add(rows * rows, Ordering::SeqCst);
    }

    fn sums(&self) -> (u32, u32, u32) {
        (
            self.calls.load(Ordering::SeqCst),
            self.starts.load(Ordering::SeqCst),
            self.squares.load(Ordering::SeqCst),
        )
    }
}

/// Paints 7 everywhere, and counts what it is asked for.
#[derive(Drop)]
struct Counting<'a> {
    geometry: Geometry,
    luma: &'a Asked,
    chroma: &'a Asked,
}

impl Painter for Counting<'_> {
    ghost picture = { λ _ _ _ _. 7 };

    ghost geometry = { λ counting. counting.geometry };

    #[tactic(auto, using(frame_view::proofs::Places::few_rows))]
    fn paint(&self, p: usize, from: usize, to: usize, rows: &mut [u8]) {
        if p == 0 {
            self.luma.add(from, to);
        } else {
            self.chroma.add(from, to);
        }
        rows.fill(7);
    }
}

/// Luma has two rows above the split and six below it, and each chroma plane one and three.
#[test]
fn the_parts_meet_at_the_row(rt: HostRuntime) -> Result<(), Fail> {
    let geometry = Geometry {
        width: 8,
        height: 8,
        chroma: Chroma::S420,
    };
    let luma = Asked::none();
    let chroma = Asked::none();
    let painter = Counting {
        geometry,
        luma: &luma,
        chroma: &chroma,
    };
    let image = painted(&rt, rt.alloc(), geometry, &painter, &|_| {})?;
    same(&rt, luma.sums(), (2, 2, 4 + 36));
    same(&rt, chroma.sums(), (4, 1 + 1, (1 + 9) + (1 + 9)));
    same_list(&rt, image.data(), &[7; 96]);
    Ok(())
}

/// Paints 7 everywhere, and counts the calls for a part that isn't noted yet: that above row 2, or that from
/// it on.
#[derive(Drop)]
struct Watching<'a> {
    geometry: Geometry,
    parts: &'a Parts,
    early: &'a AtomicU32,
}

impl Watching<'_> {
    fn look(&self, from: usize) {
        let (above, below) = self.parts.begun();
        let noted = if from < 2 { above } else { below };
        if noted == 0 {
            self.early.fetch_add(1, Ordering::SeqCst);
        }
    }
}

impl Painter for Watching<'_> {
    ghost picture = { λ _ _ _ _. 7 };

    ghost geometry = { λ watching. watching.geometry };

    fn paint(&self, _p: usize, from: usize, _to: usize, rows: &mut [u8]) {
        self.look(from);
        rows.fill(7);
    }
}

#[test]
fn each_part_is_noted_before_it_is_painted(rt: HostRuntime) -> Result<(), Fail> {
    let geometry = Geometry {
        width: 1,
        height: 4,
        chroma: Chroma::S444,
    };
    let parts = Parts::new();
    let early = AtomicU32::new(0);
    let painter = Watching {
        geometry,
        parts: &parts,
        early: &early,
    };
    let image = painted(
        &rt,
        rt.alloc(),
        geometry,
        &painter,
        &|half| parts.begin(half),
    )?;
    same(&rt, early.load(Ordering::SeqCst), 0);
    same_list(&rt, image.data(), &[7; 12]);
    Ok(())
}

/// Neither part is written before both are noted, so one thread alone would meet the other at one part only.
#[test]
fn two_threads_write_the_parts_of_a_band(rt: HostRuntime) -> Result<(), Fail> {
    let geometry = Geometry {
        width: 1,
        height: 4,
        chroma: Chroma::Mono,
    };
    let source = frame_of(rt.alloc(), geometry, b"FRAME", &[1, 2, 3, 4])?;
    let painter = Copied { source: &source };
    let parts = Parts::new();
    let image = painted(
        &rt,
        rt.alloc(),
        geometry,
        &painter,
        &|half| parts.meet(half),
    )?;
    same_at(&rt, parts.met(), 2, "was a thread or its memory refused?");
    same_list(&rt, image.data(), &[1, 2, 3, 4]);
    Ok(())
}
