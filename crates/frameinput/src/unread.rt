// A read that failed leaves an input without a verdict.
ghost use Rattle.std.specs.Prelude.{◌≡◌};
ghost use Rattle.frameinput.specs.declared.Unjudged.TheVariants.{Unread};

use crate::Unjudged;
use text::reading::ReadFailed;

impl From<ReadFailed> for Unjudged {
    ghost from_gives = { λ failed unjudged. unjudged ≡ Unread failed.error };

    fn from(failed: ReadFailed) -> Unjudged {
        Unjudged::Unread(failed.error)
    }
}
