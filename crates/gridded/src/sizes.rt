// Whether a frame's sizes are in their ranges.
ghost use Rattle.std.specs.Prelude.{◌≡◌, true};
ghost use Rattle.frame_checks.specs.Settings.{Sized};

use rules::settings::Frame;

// Whether a frame's size and subsampling are in their ranges.
pub fn sized(f: Frame) -> bool
    ensures { result ≡ true → Sized f }
{
    if f.width < 1 || f.height < 1 {
        return false;
    }
    if 4096 < f.width || 4096 < f.height {
        return false;
    }
    if 1 < f.ssx || 1 < f.ssy {
        return false;
    }
    true
}
