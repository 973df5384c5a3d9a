// The rows of a mapping as lines of text. A number takes at most 20 bytes in decimal and 16 in hexadecimal, and one ends it.
#![tactic(auto)]

ghost use Rattle.std.specs.Prelude.{◌≡◌, ℕ, List, ◌++◌, ◌+◌, ◌*◌, ◌≤◌, length};
ghost use Rattle.mapping.specs.Mapped.{rows, Within};
ghost use Rattle.lines.specs.Text.{ascii, decimal, lines, Adds};
ghost use Rattle.listing.specs.Listing.{collection_line, device_line, event_line, listing, listing_room};

use arrayvec::ArrayVec;
use mapping::{Collection, Device, Event, Mapping};

// The bytes of the longest listing.
pub const ROOM: usize = 88666;

// A text with room for it.
pub type Text = ArrayVec<u8, ROOM>;

const SPACE: u8 = b' ';

const NEWLINE: u8 = b'\n';

// A row that is a line of its own, of so many bytes at most.
trait Line: Copy {
    ghost line: { Self → List ℕ };

    ghost most: { ℕ };

    fn put(self, out: &mut Text)
        requires { length out.old.items + most ≤ listing_room }
        ensures { Adds out.old.items (line self) most out.new.items };
}

impl Line for Collection {
    ghost line = { collection_line };

    ghost most = { 42 };

    fn put(self, out: &mut Text) {
        lines::put_decimal(out, self.icid, SPACE);
        lines::put_decimal(out, self.pe, NEWLINE);
    }
}

impl Line for Device {
    ghost line = { device_line };

    ghost most = { 59 };

    fn put(self, out: &mut Text) {
        lines::put_decimal(out, self.id, SPACE);
        lines::put_hexadecimal(out, self.itt, SPACE);
        lines::put_decimal(out, self.bits, NEWLINE);
    }
}

impl Line for Event {
    ghost line = { event_line };

    ghost most = { 84 };

    fn put(self, out: &mut Text) {
        lines::put_decimal(out, self.device as u64, SPACE);
        lines::put_decimal(out, self.event as u64, SPACE);
        lines::put_decimal(out, self.lpi as u64, SPACE);
        lines::put_decimal(out, self.icid as u64, NEWLINE);
    }
}

// A line with the number of rows, then a line for each.
fn put_table<T: Line>(out: &mut Text, name: &[u8], rows: &[T])
    requires { length out.old.items + (length name.now + 21 + T.most * length rows.now) ≤ listing_room }
    ensures { Adds out.old.items (name.now ++ decimal (length rows.now) ++ ascii "\n" ++ lines T.line rows.now)
        (length name.now + 21 + T.most * length rows.now) out.new.items }
{
    lines::put_line(out, name, rows.len() as u64);
    for row in rows {
        row.put(out);
    }
}

// The whole mapping. 33 bytes for the heading of the collections and 42 for each of 16, 29 for that of the devices and 59 for each of 32,
// 28 for that of the events and 84 for each of 1,024.
// The text is lent: one that was handed back would be copied, all of its room, at each return.
pub fn fill_text(k: &Mapping, out: &mut Text)
    requires { Within k.now }
    ensures { out.new.items ≡ listing (rows k.now) }
{
    out.clear();
    put_table(out, b"collections ", &k.collections[..k.ncollections]);
    put_table(out, b"devices ", &k.devices[..k.ndevices]);
    put_table(out, b"events ", &k.events[..k.nevents]);
}

// The same as a text of its own.
pub fn mapping_text(k: &Mapping) -> Text
    requires { Within k.now }
    ensures { result.items ≡ listing (rows k.now) }
{
    let mut out = Text::new();
    fill_text(k, &mut out);
    out
}
