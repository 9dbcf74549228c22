//! Quotients by numbers next below a power of two, by shifts and sums.
ghost use Rattle.std.specs.Prelude.{◌≡◌, ◌*◌, ◌/◌, ◌<◌};
ghost use Rattle.kms_model.specs.Frames.FrameBytes.{opaque};

/// `n / (65535 * 255)`.
pub fn over_opaque(n: u32) -> u32
    requires { n < 65535 * 65280 }
    ensures { result ≡ n / opaque }
{
    over_255(over_65535(n))
}

/// `n / 65535`. With t the quotient by 65536 and r its remainder, n is 65535 * t + (t + r); so for t below
/// 65535 the answer is t, and t + 1 where t + r + 1 reaches 65536.
fn over_65535(n: u32) -> u32
    requires { n < 65535 * 65536 }
    ensures { result ≡ n / 65535 }
{
    (n + 1 + (n >> 16)) >> 16
}

/// `n / 255`, likewise.
fn over_255(n: u32) -> u32
    requires { n < 255 * 256 }
    ensures { result ≡ n / 255 }
{
    (n + 1 + (n >> 8)) >> 8
}
