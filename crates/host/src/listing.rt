// Host players call "the listing of a programme's start, directly on byte slices and numbers".
ghost use Rattle.std.specs.Prelude.{◌*◌, ◌≤◌, length, ◌≡◌};
ghost use Rattle.std.proofs.lemmas.List.Edits.{sets};
ghost use Rattle.host.specs.HostListing.{bytes_of, host_answer, host_buffered, host_listed};
ghost use Rattle.listener.specs.Listing.{listed_by};
ghost use Rattle.listener.specs.StartListing.{start_number};
ghost use Rattle.sheet.specs.Words.{sheet_of, words};

use listener::writing::list_start;
use listener::{MOST_ENTRIES, Refusal};

// Writes each word "as two bytes, high first", from the buffer's start.
// By index: `as_chunks_mut` says nothing of what the slice ends as, and the equation is about just that.
fn write_words(words: &[u16], buffer: &mut [u8])
    requires { 2 * length words.now ≤ length buffer.old }
    ensures { buffer.new ≡ sets buffer.old 0 (bytes_of words.now) }
{
    for (i, word) in words.iter().enumerate() {
        let [high, low] = word.to_be_bytes();
        buffer[2 * i] = high;
        buffer[2 * i + 1] = low;
    }
}

// The listing as bytes, and how many tracks it has, or why it is refused: 25, 27 and 32, in this order. The words are in fixed memory, and
// 28 are enough for each sheet that opens.
fn write_listing(
    sheet: &[u8],
    langs: &[u8],
    programme: u32,
    buffer: &mut [u8],
) -> Result<u64, Refusal>
    ensures { (result ≡ listed_by (start_number (sheet_of sheet.now) programme) (host_answer (sheet_of sheet.now) (words langs.now) programme (length buffer.old))) × (buffer.new ≡ host_buffered (sheet_of sheet.now) (words langs.now) programme buffer.old) }
{
    let mut words: [u16; MOST_ENTRIES] = [0; MOST_ENTRIES];
    let entries = list_start(sheet, langs, programme, &mut words)?;
    // it fits: 28 at most
    let n = entries as usize;
    if buffer.len() < 2 * n {
        return Err(Refusal::TooFewWords);
    }
    write_words(&words[..n], buffer);
    Ok(entries)
}

// The number of tracks, or 25, 27 or 32 negated, since the C interface hands out a number: any lengths, any bytes, any number.
#[unsafe(no_mangle)]
pub extern "C" fn sheet_start_listing(
    sheet: &[u8],
    langs: &[u8],
    programme: u32,
    buffer: &mut [u8],
) -> i32
    ensures { (result ≡ host_listed (sheet_of sheet.now) (words langs.now) programme (length buffer.old)) × (buffer.new ≡ host_buffered (sheet_of sheet.now) (words langs.now) programme buffer.old) }
{
    match write_listing(sheet, langs, programme, buffer) {
        // it fits: 28 at most
        Ok(entries) => entries as i32,
        // "the refusal's number negated"
        Err(refusal) => -i32::from(u16::from(refusal)),
    }
}
