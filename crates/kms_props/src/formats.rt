//! The table of formats. (Header: `drm_fourcc.h`.)
ghost use Rattle.std.specs.Prelude.{◌≡◌, map};
ghost use Rattle.kms_model.specs.Device.Properties.{format_of};
ghost use Rattle.kms_model.specs.Device.Properties.{formats as format_rows};
ghost use Rattle.kms_model.specs.Machine.Registers.{code_of};
ghost use Rattle.kms_props.specs.Rows.{format_row_of};

use crate::first_row;
use crate::table::Table;
use kms_model::Format;

/// A row of the table of formats.
#[derive(Clone, Copy, PartialEq, Eq)]
pub struct FormatRow {
    /// The four characters of its name as a little-endian word.
    pub code: u32,
    /// The format.
    pub format: Format,
}

/// `DRM_FORMAT_XRGB8888`, `DRM_FORMAT_ARGB8888` and `DRM_FORMAT_RGB565`.
const FORMATS: Table<FormatRow, 3> = Table {
    rows: [
        FormatRow {
            code: 0x34325258,
            format: Format::Xr24,
        },
        FormatRow {
            code: 0x34325241,
            format: Format::Ar24,
        },
        FormatRow {
            code: 0x36314752,
            format: Format::Rg16,
        },
    ],
};

/// The table of formats, in the order of the bits of a plane's formats.
pub fn format_table() -> Table<FormatRow, 3>
    ensures { map format_row_of result.rows ≡ format_rows }
{
    FORMATS
}

/// The format with this code; `None` where no row has it.
pub fn fourcc(code: u32) -> Option<Format>
    ensures { result ≡ format_of code }
{
    first_row!(format_table(), row if row.code == code => row.format)
}

/// The code of a format.
pub fn code(format: Format) -> u32
    ensures { result ≡ code_of format }
{
    match format {
        Format::Xr24 => FORMATS.rows[0].code,
        Format::Ar24 => FORMATS.rows[1].code,
        Format::Rg16 => FORMATS.rows[2].code,
    }
}
