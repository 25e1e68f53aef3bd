// Refusal 20 (document 01): whether a heading and a list of doubles are a workspace, for any numbers whatever. What is asked is `valid_heading` of the
// crate heading_format, specs/Heading.antt.
#![tactic(auto)]

mod counts_check;
mod forerunner_check;
mod layout_check;
pub mod order_check;
mod progress_check;
mod room_check;
pub mod stage_check;

ghost use Rattle.std.specs.Prelude.{◌≡◌, ◌<◌};
ghost use Rattle.heading_format.specs.Heading.{valid_heading};

use heading_format::parts;

// Whether the heading and a list of this many doubles are a workspace.
pub fn is_valid_heading(heading: &[u32], doubles: usize) -> bool
    ensures { result ≡ valid_heading heading.now doubles }
{
    if parts::HEADING_LENGTH <= heading.len() {
        if room_check::has_flags(heading) {
            let layout = heading::layout(heading);
            if layout_check::is_valid_layout(layout) {
                if progress_check::is_valid_progress(heading, layout.k) {
                    return room_check::has_room(heading, layout, doubles);
                }
            }
        }
    }
    false
}
