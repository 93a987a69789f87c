// The listing of a site sheet: the sheet is read into tables on the stack and joined there, and the answer is
// written as text. Everything that a caller sees is in the answer and in the lent text.

#![tactic(auto)]

ghost use Rattle.std.specs.Prelude.{[], ◌≡◌, ◌*◌, ◌≤◌, length};
ghost use Rattle.words.specs.Words.{padded};
ghost use Rattle.refusal.specs.Numbers.{rule_number};
ghost use Rattle.sheet.specs.Read.{◌then◌};
ghost use Rattle.sheet.specs.Reading.{read_sheet};
ghost use Rattle.pen.specs.Lines.{Fits, front_pen};
ghost use Rattle.pen.specs.Added.{Added};
ghost use Rattle.listing.specs.Listing.{counts_text, entries_text, listing_lines, joined, listing_in, refused_text};
ghost use Rattle.listing.specs.Answer.{listing_said};
ghost use Rattle.listing.specs.Joined.{joined_said};
ghost use Rattle.listing.specs.Inside.{room_for_list, SheetJoined, TablesJoined, entries_in, Put, PutText};
ghost use Rattle.listing.specs.Calls.{page_room, Lists, Prints};

use entries::WIDTH;
use join::Counted;
use pen::Pen;
use refusal::{Refusal, Rule};

// The most bytes of a sheet.
const LIMIT: usize = 24576;

// The words of the tables, of a list of 64 entries, of a trail of 2,048 pairs, and of the work area.
const OFFSETS: usize = 257;

const CODES: usize = 4096;

const LIST: usize = 64 * WIDTH;

const TRAIL: usize = 2 * 2048;

const WORK: usize = 10240;

// The bytes of the program's text: any listing fits.
pub const PAGE: usize = 2048;

// What the join tells: k as asked for, and the three counts. The list is in a lent buffer.
#[derive(Clone, Copy)]
struct Joined {
    k: u16,
    found: u16,
    events: u16,
    met: u16,
}

// Joins tables, with a work area and a trail of its own: room for 2,048 pairs.
fn join_tables(k: u16, offsets: &[u16], codes: &[u16], list: &mut [u16]) -> Result<Joined, Refusal>
    requires { length list.old ≡ room_for_list }
    ensures { TablesJoined k offsets.now codes.now list.new (joined_said result) }
{
    let mut work = [0; WORK];
    let mut trail = [0; TRAIL];
    let Counted { found, events, met } = join::join(
        k, offsets, codes, list, &mut work, &mut trail,
    )?;
    Ok(Joined {
        k,
        found: found as u16,
        events: events as u16,
        met: met as u16,
    })
}

// Reads a sheet into tables of its own, and joins them.
fn join_sheet(sheet: &[u8], list: &mut [u16]) -> Result<Joined, Refusal>
    requires { length list.old ≡ room_for_list }
    ensures { SheetJoined (read_sheet 257 4096 sheet.now then joined) list.new (joined_said result) }
{
    let mut offsets = [0; OFFSETS];
    let mut codes = [0; CODES];
    let read = reader::read(sheet, &mut offsets, &mut codes)?;
    join_tables(
        read.k,
        &offsets[..read.contexts as usize + 1],
        &codes[..read.codes as usize],
        list,
    )
}

// Writes k and the three counts at the front of the text.
fn add_counts(text: &mut [u8], joined: Joined) -> Option<Pen>
    ensures { Added (counts_text joined.k joined.found joined.events joined.met)
        text.old text.new (front_pen text.old) result }
{
    let front = Pen {
        place: 0,
        room: text.len(),
    };
    let pen = pen::line_if(text, front, b"k=", &[joined.k])?;
    let pen = pen::line_if(text, pen, b"found=", &[joined.found])?;
    let pen = pen::line_if(text, pen, b"events=", &[joined.events])?;
    pen::line_if(text, pen, b"met=", &[joined.met])
}

// Writes a line for each entry of the list behind the pen.
fn add_entries(text: &mut [u8], pen: Pen, list: &[u16]) -> Option<Pen>
    requires { Fits pen text.old }
    ensures { Added (entries_text (entries_in list.now)) text.old text.new pen result }
{
    let mut pen = pen;
    for entry in list.chunks_exact(WIDTH) {
        pen = pen::line_if(text, pen, b"pair=", entry)?;
    }
    Some(pen)
}

// Writes the lines of the listing at the front of the text.
fn add_listing(text: &mut [u8], joined: Joined, list: &[u16]) -> Option<Pen>
    ensures { Added (listing_lines joined.k joined.found joined.events joined.met (entries_in list.now))
        text.old text.new (front_pen text.old) result }
{
    let pen = add_counts(text, joined)?;
    add_entries(text, pen, list)
}

// Writes the listing at the front of the text, if it fits.
fn write_listing(text: &mut [u8], joined: Joined, list: &[u16]) -> Result<usize, Refusal>
    ensures { PutText (listing_lines joined.k joined.found joined.events joined.met (entries_in list.now))
        text.old text.new (listing_said result) }
{
    match add_listing(text, joined, list) {
        Some(pen) => Ok(pen.place),
        None => Err(Refusal::at(Rule::TextRoom, 0)),
    }
}

// Writes the listing of a sheet at the front of the text; the bytes behind it are anything.
fn list_into(sheet: &[u8], text: &mut [u8]) -> Result<usize, Refusal>
    ensures { Put (listing_in (length text.old) sheet.now) text.new (listing_said result) }
{
    if sheet.len() > LIMIT {
        return Err(Refusal::at(Rule::TablesRoom, LIMIT));
    }
    let mut list = [0; LIST];
    let joined = join_sheet(sheet, &mut list)?;
    write_listing(text, joined, &list[..WIDTH * joined.found as usize])
}

// The listing of a sheet. Behind it, and everywhere after a refusal, stand zeros.
pub fn list_sheet(sheet: &[u8], text: &mut [u8]) -> Result<usize, Refusal>
    ensures { Lists sheet.now text.old (listing_said result) text.new }
{
    let listed = list_into(sheet, text);
    words::zero_from(text, listed.unwrap_or(0));
    listed
}

// Writes the line of a refusal into a text of zeros.
fn write_refusal(text: &mut [u8], refusal: Refusal) -> usize
    requires zero { text.old ≡ padded page_room [] }
    requires place_short { refusal.place ≤ 65535 }
    ensures { (result ≡ length (refused_text (rule_number refusal.rule) refusal.place))
        × (text.new ≡ padded page_room (refused_text (rule_number refusal.rule) refusal.place)) }
{
    let front = Pen {
        place: 0,
        room: PAGE,
    };
    let numbers = [refusal.number(), refusal.place as u16];
    pen::line_by(text, front, b"refused=", &numbers).place
}

// What the program prints of a sheet: its listing, or the line of the refusal. It always has room.
pub fn print_sheet(sheet: &[u8], text: &mut [u8; PAGE]) -> usize
    ensures { Prints sheet.now result text.new }
{
    match list_sheet(sheet, text) {
        Ok(n) => n,
        Err(refusal) => write_refusal(text, refusal),
    }
}
