//! Rows of a frame, drawn in place by one thread.
ghost use Rattle.std.specs.Prelude.{◌≡◌, ◌<◌, ◌≤◌, ◌*◌, ◌+◌, ℕ, length, All};
ghost use Rattle.std.specs.List.{flat_map, range_with_len};
ghost use Rattle.kms_model.specs.declared.pictures.Colour.{Colour};
ghost use Rattle.kms_model.specs.Frames.FrameBytes.{black, through};
ghost use Rattle.kms_compose.specs.Areas.{canvas, drawn, in_columns};
ghost use Rattle.kms_compose.specs.Parts.{IsPart, part_pixel, parts_over};

use crate::areas::Area;
use crate::parts::VisiblePart;
use crate::rows::{Channels, Piece, RUN, interleave, make_run};
use crate::tables::through_gamma;
use kms_model::Gamma;

/// Draws pixels of a row, at most as many as are made at a time. `words` is room for a word of each, `pixels` for their channels.
fn draw_run(
    parts: &[VisiblePart],
    gamma: &Option<Gamma>,
    piece: Piece,
    words: &mut [u32],
    pixels: &mut Channels,
    out: &mut [u8],
)
    requires parts { All IsPart parts.now }
    requires narrow { piece.left + piece.count < 65536 }
    requires few { piece.count ≤ 256 }
    requires words { length words.old ≡ 256 }
    requires out { length out.old ≡ 3 * piece.count }
    ensures { out.new
        ≡ flat_map (part_pixel gamma.now parts.now piece.y) (range_with_len piece.left piece.count) }
{
    make_run(parts, piece, words, pixels);
    through_gamma(gamma, piece.count, pixels);
    let red = &pixels.red[..piece.count];
    let green = &pixels.green[..piece.count];
    let blue = &pixels.blue[..piece.count];
    interleave(red, green, blue, out);
}

/// Draws pixels of a row. `words` and `pixels` are room for those that are made at a time.
fn draw_runs(
    parts: &[VisiblePart],
    gamma: &Option<Gamma>,
    piece: Piece,
    words: &mut [u32],
    pixels: &mut Channels,
    out: &mut [u8],
)
    requires parts { All IsPart parts.now }
    requires narrow { piece.left + piece.count < 65536 }
    requires words { length words.old ≡ 256 }
    requires out { length out.old ≡ 3 * piece.count }
    ensures { out.new
        ≡ flat_map (part_pixel gamma.now parts.now piece.y) (range_with_len piece.left piece.count) }
{
    let Piece { y, left, count } = piece;
    let mut done = 0;
    while done < count {
        let more = RUN.min(count - done);
        let run = Piece {
            y,
            left: left + done,
            count: more,
        };
        let bytes = &mut out[3 * done..3 * (done + more)];
        draw_run(parts, gamma, run, words, pixels, bytes);
        done += more;
    }
}

/// Draws the pixels of a rectangle. `rows` are those rows of a frame that it has, of `width` pixels each.
pub fn draw_band(
    parts: &[VisiblePart],
    gamma: &Option<Gamma>,
    width: usize,
    area: &Area,
    rows: &mut [u8],
)
    requires parts { All IsPart parts.now }
    requires narrow { width < 65536 }
    requires across { area.now.left + area.now.width ≤ width }
    requires low { area.now.top + area.now.height < 65536 }
    requires long { length rows.old ≡ area.now.height * (width * 3) }
    ensures { (before : ℕ → ℕ → Colour) → rows.old ≡ canvas width area.now.height before
        → rows.new ≡ canvas width area.now.height (drawn (in_columns area.now)
        (λ x y. through gamma.now (parts_over x (area.now.top + y) black parts.now)) before) }
{
    let mut words = [0; RUN];
    let words = words.as_mut_slice();
    let mut pixels = Channels::new();
    for y in 0..area.height {
        let start = 3 * (y * width + area.left);
        let row = &mut rows[start..start + 3 * area.width];
        let piece = Piece {
            y: area.top + y,
            left: area.left,
            count: area.width,
        };
        draw_runs(parts, gamma, piece, words, &mut pixels, row);
    }
}
