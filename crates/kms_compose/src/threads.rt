//! Who draws the rows of a frame: one thread, or several.
ghost use Rattle.std.specs.Prelude.{◌≡◌, ◌<◌, ◌≤◌, ◌*◌, ◌+◌, ◌/◌, ℕ, length, All};
ghost use Rattle.std.specs.Thread.{IsSync};
ghost use Rattle.kms_model.specs.declared.pictures.Colour.{Colour};
ghost use Rattle.kms_model.specs.Frames.FrameBytes.{black, through};
ghost use Rattle.kms_compose.specs.Areas.{AreRowsOf, canvas, drawn, in_columns};
ghost use Rattle.kms_compose.specs.Parts.{IsPart, parts_over};

use crate::areas::Area;
use crate::drawing::draw_band;
use crate::parts::VisiblePart;
use kms_model::Gamma;
use rayon::current_num_threads;
use rayon::prelude::*;
use std::thread::Threads;

/// How many threads draw the rows of a frame: no more than there are processors. Two frames that are made side by side
/// have so many together, where there are two or more.
#[derive(Clone, Copy)]
pub enum Share {
    /// One for each processor, up to 64.
    Whole,
    /// One for every second processor, and one at the least: the others are another frame's, which is made beside this one.
    Half,
}

impl Share {
    /// How many threads it is of so many.
    fn of(self, threads: usize) -> usize {
        match self {
            Share::Whole => threads,
            Share::Half => threads / 2,
        }
    }
}

/// Who draws rows of a frame.
pub trait Drawer {
    // What is asked of who draws: that its threads may share it.
    ghost can_draw: { Self → Type 0 };

    /// Draws the pixels of a rectangle. `rows` are those rows of a frame that it has, of `width` pixels each.
    fn draw(
        &self,
        parts: &[VisiblePart],
        gamma: &Option<Gamma>,
        width: usize,
        area: &Area,
        rows: &mut [u8],
    )
        requires drawer { can_draw self.now }
        requires parts { All IsPart parts.now }
        requires narrow { width < 65536 }
        requires across { area.now.left + area.now.width ≤ width }
        requires low { area.now.top + area.now.height < 65536 }
        requires long { length rows.old ≡ area.now.height * (width * 3) }
        ensures { (before : ℕ → ℕ → Colour) → rows.old ≡ canvas width area.now.height before
            → rows.new ≡ canvas width area.now.height (drawn (in_columns area.now)
            (λ x y. through gamma.now (parts_over x (area.now.top + y) black parts.now)) before) };
}

/// One thread.
#[derive(Clone, Copy)]
pub struct OneDrawer;

impl Drawer for OneDrawer {
    ghost use Rattle.std.specs.Prelude.{⊤};

    ghost can_draw = { λ _. ⊤ };

    fn draw(
        &self,
        parts: &[VisiblePart],
        gamma: &Option<Gamma>,
        width: usize,
        area: &Area,
        rows: &mut [u8],
    ) {
        draw_band(parts, gamma, width, area, rows);
    }
}

/// Several threads, of which each draws rows that lie side by side.
#[derive(Drop)]
pub struct SeveralDrawers<'a, R> {
    /// Where the threads come from.
    pub rt: &'a R,
    /// How many there are.
    pub share: Share,
}

/// How many pixels are worth a thread of their own, counted once for each layer. A thread takes some 20 microseconds to start and to
/// join; so many pixels of an opaque plane take 70 at the least.
const WORTH_A_THREAD: usize = 65_536;

impl<'a, R: Threads + Sync> SeveralDrawers<'a, R> {
    /// How many threads are worth it for a rectangle of so many layers.
    fn threads(&self, area: &Area, layers: usize) -> usize {
        let pixels = area.width.saturating_mul(area.height);
        let worth = pixels.saturating_mul(layers) / WORTH_A_THREAD;
        if worth < 2 {
            return 1;
        }
        self.share.of(current_num_threads(self.rt)).min(worth)
    }

    /// Draws the pixels of a rectangle, by a thread for each band of so many of its rows, and one for what is left.
    fn draw_bands(
        &self,
        parts: &[VisiblePart],
        gamma: &Option<Gamma>,
        width: usize,
        area: &Area,
        height: usize,
        rows: &mut [u8],
    )
        requires parts { All IsPart parts.now }
        requires narrow { width < 65536 }
        requires across { area.now.left + area.now.width ≤ width }
        requires low { area.now.top + area.now.height < 65536 }
        requires some { 0 < height }
        requires few { height ≤ 65536 }
        requires long { length rows.old ≡ area.now.height * (width * 3) }
        ensures { (before : ℕ → ℕ → Colour) → rows.old ≡ canvas width area.now.height before
            → rows.new ≡ canvas width area.now.height (drawn (in_columns area.now)
            (λ x y. through gamma.now (parts_over x (area.now.top + y) black parts.now)) before) }
    {
        if width == 0 {
            return;
        }
        let row = 3 * width;
        par_chunks_mut_for_each(
            self.rt,
            rows,
            height * row,
            |start: usize, band: &mut [u8]|
                requires { All IsPart parts.now × (0 < row) × (row ≡ 3 * width) × (width < 65536)
                    × (area.now.left + area.now.width ≤ width) × (area.now.top + area.now.height < 65536)
                    × AreRowsOf width area.now.height start (length band.old) }
                ensures { (before : ℕ → ℕ → Colour) → band.old ≡ canvas width (length band.old / row) before
                    → band.new ≡ canvas width (length band.old / row) (drawn (in_columns area.entry.now)
                    (λ x y. through gamma.entry.now (parts_over x (area.entry.now.top + start / row + y) black parts.entry.now)) before) }
            {
                let own = Area {
                    top: area.top + start / row,
                    height: band.len() / row,
                    ..*area
                };
                draw_band(parts, gamma, width, &own, band);
            },
        );
    }
}

impl<'a, R: Threads + Sync> Drawer for SeveralDrawers<'a, R> {
    ghost can_draw = { λ _. IsSync R.row };

    fn draw(
        &self,
        parts: &[VisiblePart],
        gamma: &Option<Gamma>,
        width: usize,
        area: &Area,
        rows: &mut [u8],
    ) {
        let threads = self.threads(area, parts.len());
        if threads < 2 {
            draw_band(parts, gamma, width, area, rows);
        } else {
            let height = area.height / threads + 1;
            self.draw_bands(parts, gamma, width, area, height, rows);
        }
    }
}
