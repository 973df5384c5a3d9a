// The text for an image of guest memory.
ghost use Rattle.std.specs.Prelude.{◌≡◌};
ghost use Rattle.answers.specs.Number.{number};
ghost use Rattle.show.specs.Shown.{refusal, shown};

use answers::Errno;
use listing::Text;

fn put_refusal(out: &mut Text, errno: Errno)
    ensures { out.new.items ≡ refusal (number errno) }
{
    out.clear();
    lines::put_line(out, b"refused -", errno.number());
}

// The text is lent (listing::fill_text says why). A function of its own in the machine's code too, so that what it needs of the stack is not
// kept beside the name of the file.
#[inline(never)]
pub fn show_image(bytes: &[u8], out: &mut Text)
    ensures { out.new.items ≡ shown bytes.now }
{
    if !image::is_image(bytes.len()) {
        put_refusal(out, Errno::EFAULT);
        return;
    }
    let mut state = [0u8; image::STATE];
    image::store_guest_of(&mut state, bytes.len() as u64);
    match restore::restore_tables(&mut state, bytes) {
        Ok(()) => listing::fill_text(&maplayout::load_mapping(&state), out),
        Err(errno) => put_refusal(out, errno),
    }
}
