// One part alone, for hosts that want its code and nothing else.
ghost use Rattle.std.specs.Prelude.{◌≡◌};
ghost use Rattle.host.specs.Checked.{checked_at, checked};

use part::sheet::{on_sheet, sheet_state};

// 0 where the rules accept the part on the paper's sheet at some increment; else 19 to 29. 15 where no descriptor has such an increment.
// Codes are numbers here, since C's export of this name hands them on as they are.
pub fn halviruso_check_at(part: &[u8], increment: u32) -> u32
    ensures { result ≡ checked_at increment part.now }
{
    if increment > 32767 {
        return 15;
    }
    let mut area = [0u8; 4096];
    let r = on_sheet(part, 144, increment, &mut area, sheet_state(increment));
    r.answer.code
}

// The same at eight lines to the inch.
pub fn halviruso_check(part: &[u8]) -> u32
    ensures { result ≡ checked part.now }
{
    halviruso_check_at(part, 180)
}
