// Says why a restore of an image of guest memory is refused. The image is read as crates/image has it; what is written for it is
// `explained` of specs/Explained.antt.
#![tactic(auto)]

mod text;

fn main(rt: HostRuntime) {
    let mut buffer = [0u8; image::input::MOST];
    if let Ok(n) = image::input::read_image(&rt, &mut buffer) {
        image::input::write_text(&rt, text::explain_image(&buffer[..n]).as_slice());
    }
}
