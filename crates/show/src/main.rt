// Shows the ITS mapping in an image of guest memory, which is read as crates/image has it. What is written for an image is `shown` of
// specs/Shown.antt.
#![tactic(auto)]

mod text;

// A function of its own, so that the text is cleared once.
fn show_bytes(rt: &HostRuntime, bytes: &[u8]) {
    let mut out = listing::Text::new();
    text::show_image(bytes, &mut out);
    image::input::write_text(rt, out.as_slice());
}

fn main(rt: HostRuntime) {
    let mut buffer = [0u8; image::input::MOST];
    if let Ok(n) = image::input::read_image(&rt, &mut buffer) {
        show_bytes(&rt, &buffer[..n]);
    }
}
