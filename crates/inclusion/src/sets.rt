// Value sets compared.
ghost use Rattle.std.specs.Prelude.{false, ◌≡◌};
ghost use Rattle.profile.specs.Rules.{sets_differ};
ghost use Rattle.sheet.specs.Fields.{value_sets};
ghost use Rattle.sheet.specs.Layout.{offset};
ghost use Rattle.sheet.specs.Words.{sheet_of};

// Whether two sets may differ in any of seven words, which are a record of section 7, where that begins at `base`. One past the sheet's end
// may. A struct of the sheet and the offset would carry what only its maker's contract tells of the offset: see lib.rt.
pub fn sets_differ(s: &[u8], base: u16, u: u16, v: u16) -> bool
    ensures { result ≡ false → base ≡ offset (sheet_of s.now) value_sets → sets_differ (sheet_of s.now) u v ≡ false }
{
    let a = 2 * (usize::from(base) + 7 * usize::from(u));
    let b = 2 * (usize::from(base) + 7 * usize::from(v));
    match (s.get(a..a + 14), s.get(b..b + 14)) {
        (Some(x), Some(y)) => x != y,
        _ => true,
    }
}
