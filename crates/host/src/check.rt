// Host players "call check .. directly on byte slices and numbers".
ghost use Rattle.std.specs.Prelude.{◌≡◌};
ghost use Rattle.checker.specs.Checked.{checked};
ghost use Rattle.profile.specs.Verdict.{verdict_code};

use checker::search::check;

// 0 where the sheet is accepted under the lent list of languages, else 1,000,000 times the rule plus 100,000 times the section plus the
// record: any lengths, any bytes.
#[unsafe(no_mangle)]
pub extern "C" fn sheet_check(sheet: &[u8], langs: &[u8]) -> u32
    ensures { result ≡ verdict_code (checked sheet.now langs.now) }
{
    u32::from(check(sheet, langs))
}
